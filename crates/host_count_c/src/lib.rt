// What C calls of host_count: each export calls the function of that name and states its contract again.
#![tactic(auto)]

ghost use Rattle.count.specs.Counts.{loan_before, loan_after};
ghost use Rattle.host_count.specs.Told.{CountTold};

// Counts a log: 0 and the report's numbers at the start of report, or the number of the refusal. Where report is too short it is 13, and nothing is done.
#[unsafe(no_mangle)]
pub extern "C" fn qm_count(
    log: &[u8],
    store: &mut [u8],
    ledger: &mut [u32],
    numbers: &mut [i64],
    report: &mut [u64],
) -> u32
    ensures { CountTold log.now (loan_before store ledger numbers) report.old result (loan_after store ledger numbers) report.new }
{
    host_count::qm_count(log, store, ledger, numbers, report)
}
