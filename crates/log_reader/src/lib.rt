// An open reader: it holds the lent log bytes and its place. Each call is thin: it calls the function of crate flight_log on the slice and the
// place.
#![tactic(auto)]

ghost use Rattle.std.specs.Prelude.{◌≡◌, take, drop};
ghost use Rattle.flight_log.specs.Editions.{limits_in_lem};
ghost use Rattle.flight_log.specs.Step.{step_told};
ghost use Rattle.log_reader.specs.Reader.{reader_at, step_now, onward};

use flight_log::{EntryAt, Limits};
use refusals::Refusal;

#[derive(Clone, Copy)]
pub struct LogReader<'a> {
    pub log: &'a [u8],
    pub at: usize,
}

impl<'a> LogReader<'a> {
    // Opens a log at its start.
    pub fn open(log: &'a [u8]) -> LogReader<'a>
        ensures { result ≡ reader_at log.entry 0 }
    {
        LogReader { log, at: 0 }
    }

    // The next entry, none at the end, or the refusal. The place moves on after an entry, and otherwise stays.
    // Kept: no `Iterator`, since one ends after a refusal, and this reader gives the same refusal again (theorem `refused-stays`).
    pub fn next(&mut self) -> Result<Option<EntryAt>, Refusal>
        ensures { (step_told result ≡ step_now self.old) × (self.new ≡ onward self.old) }
    {
        let step = flight_log::read_on(self.log, self.at);
        self.at = flight_log::place_after(self.at, step);
        step
    }

    // The log's limits.
    pub fn limits(self) -> Limits
        ensures { result ≡ limits_in_lem self.entry.log.now }
    {
        flight_log::limits_in(self.log)
    }

    // The datagram of an entry, as the part of the lent log that holds it.
    pub fn datagram(self, at: usize, len: usize) -> &'a [u8]
        ensures { result.now ≡ take len (drop at self.entry.log.now) }
    {
        wire::part(self.log, at, len)
    }
}
