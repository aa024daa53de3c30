// What C calls of host_receiver: each export calls the function of that name and states its contract again.
#![tactic(auto)]

ghost use Rattle.receiver.specs.Lent.{lent_before, lent_after};
ghost use Rattle.wire.specs.Slices.{buffer};
ghost use Rattle.host_receiver.specs.Calls.{ReceiveTold, WithinTold};

// What is done with a datagram of that sender: 0 and the outcome, or the number of the refusal and nothing written.
#[unsafe(no_mangle)]
pub extern "C" fn qm_receive(
    state: &mut [u64],
    names: &mut [u8],
    store: &mut [u8],
    ledger: &mut [u32],
    sender: u64,
    datagram: &[u8],
    told: &mut [u64],
    name: &mut [u8],
) -> u32
    ensures { ReceiveTold (lent_before state names store ledger) sender datagram.now (buffer told) (buffer name) result (lent_after state names store ledger) }
{
    host_receiver::qm_receive(state, names, store, ledger, sender, datagram, told, name)
}

// The same with a datagram out of a log, whose limits bind beside the receiver's: its largest payload and its most fragments.
#[unsafe(no_mangle)]
pub extern "C" fn qm_receive_within(
    state: &mut [u64],
    names: &mut [u8],
    store: &mut [u8],
    ledger: &mut [u32],
    payload: usize,
    fragments: u32,
    sender: u64,
    datagram: &[u8],
    told: &mut [u64],
    name: &mut [u8],
) -> u32
    ensures { WithinTold (record { payload = payload; fragments = fragments }) (lent_before state names store ledger) sender datagram.now
        (buffer told) (buffer name) result (lent_after state names store ledger) }
{
    host_receiver::qm_receive_within(
        state, names, store, ledger, payload, fragments, sender, datagram, told, name,
    )
}
