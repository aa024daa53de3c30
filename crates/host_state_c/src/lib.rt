// What C calls of host_state: each export calls the function of that name and states its contract again.
#![tactic(auto)]

ghost use Rattle.std.specs.Prelude.{◌≡◌};
ghost use Rattle.host_state.specs.Calls.{OpenTold, ForgetTold};
ghost use Rattle.host_state.specs.Lengths.{LengthsTold, version};

// A fresh receiver over a store of that many bytes: 0, or the number of the refusal.
#[unsafe(no_mangle)]
pub extern "C" fn qm_open(state: &mut [u64], names: &mut [u8], store_length: usize) -> u32
    ensures { OpenTold state.old names.old store_length result state.new names.new }
{
    host_state::qm_open(state, names, store_length)
}

// The sender's slots are freed and its remembered keys dropped: 0, or the number of the refusal.
#[unsafe(no_mangle)]
pub extern "C" fn qm_forget(state: &mut [u64], names: &mut [u8], sender: u64) -> u32
    ensures { ForgetTold state.old names.old sender result state.new names.new }
{
    host_state::qm_forget(state, names, sender)
}

// The lengths that a host goes by, as this code has them, at the start of a lent list: 0, or 13.
#[unsafe(no_mangle)]
pub extern "C" fn qm_lengths(lengths: &mut [u64]) -> u32
    ensures { LengthsTold lengths.old result lengths.new }
{
    host_state::qm_lengths(lengths)
}

// Which header this code goes with.
#[unsafe(no_mangle)]
pub extern "C" fn qm_version() -> u32
    ensures { result ≡ version }
{
    host_state::qm_version()
}
