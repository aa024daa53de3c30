// What a receiver needs lent, its opening and its forgetting, as the van's C host calls them.
#![tactic(auto)]

ghost use Rattle.std.specs.Prelude.{◌≡◌};
ghost use Rattle.receiver.specs.Calls.{refusal_of};
ghost use Rattle.host_state.specs.Calls.{call_code_lem, OpenTold, ForgetTold};
ghost use Rattle.host_state.specs.Lengths.{LengthsTold, version};

use refusals::Refusal;

// How many numbers tell of an answer, how many come after them, and how many tell of an outcome.
pub const ANSWERED: usize = 4;

pub const LATER: usize = 4;

pub const OUTCOME: usize = ANSWERED + LATER;

// How many lengths there are.
pub const LENGTHS: usize = 10;

// The header that this code goes with: a hundred times the major number and the minor.
pub const VERSION: u32 = 100;

// ---- opening and forgetting

fn call_code(call: Result<(), Refusal>) -> u32
    ensures { result ≡ call_code_lem (refusal_of call) }
{
    match call {
        Ok(()) => 0,
        Err(refusal) => refusal.number(),
    }
}

// A fresh receiver over a store of that many bytes: 0, or the number of the refusal.
#[unsafe(no_mangle)]
pub extern "C" fn qm_open(state: &mut [u64], names: &mut [u8], store_length: usize) -> u32
    ensures { OpenTold state.old names.old store_length result state.new names.new }
{
    call_code(open_and_payload::open(state, names, store_length))
}

// The sender's slots are freed and its remembered keys dropped: 0, or the number of the refusal.
#[unsafe(no_mangle)]
pub extern "C" fn qm_forget(state: &mut [u64], names: &mut [u8], sender: u64) -> u32
    ensures { ForgetTold state.old names.old sender result state.new names.new }
{
    call_code(receiver::forget(state, names, sender))
}

// ---- lengths and the version

// The lengths that a host goes by, as this code has them, at the start of a lent list: 0, or 13.
#[unsafe(no_mangle)]
pub extern "C" fn qm_lengths(lengths: &mut [u64]) -> u32
    ensures { LengthsTold lengths.old result lengths.new }
{
    // A constant: an array made here would be laid twice.
    const ALL: [u64; LENGTHS] = [
        slots::SLOTS as u64,
        datagram::MAX_PAYLOAD as u64,
        datagram::MAX_FRAGMENTS as u64,
        datagram::MAX_NAME as u64,
        receiver::STATE_WORDS as u64,
        receiver::NAME_BYTES as u64,
        receiver::LEDGER as u64,
        OUTCOME as u64,
        watch::SENDERS as u64,
        log_index::MAX_INDEX as u64,
    ];
    if lengths.len() < LENGTHS {
        return Refusal::NoRoom.number();
    }
    lengths[..LENGTHS].copy_from_slice(&ALL);
    0
}

// Which header this code goes with.
#[unsafe(no_mangle)]
pub extern "C" fn qm_version() -> u32
    ensures { result ≡ version }
{
    VERSION
}
