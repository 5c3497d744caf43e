//! The pages of collectors, of targets that are searched for, and of the last allocations.
ghost use Rattle.std.specs.Prelude.{◌≡◌, ◌≤◌, length, Some, IfOk, IfSome};
ghost use Rattle.sd_server.specs.Says.{IsAllocationsText, IsCollectorText, IsCollectorsText, IsFoundText, SaysAllocations, SaysCollectorPage, SaysCollectors, SaysFound};
ghost use Rattle.page_rows.specs.Meant.{id_meant};
ghost use Rattle.sd_server.specs.Spans.{Moves, now_of};
ghost use Rattle.page_rows.specs.declared.found.TheConstants.{MOST_FOUND};

use crate::handler::Handler;
use crate::seen::Seen;
use allocation_core::{Answer, Refusal};
use fleet_events::TargetId;
use kept_journal::JournalName;
use lists::Text;
use page_rows::{
    Found, LOOKED_AT_ONCE, allocations_text, collector_meant, collector_rows, found_of, matching,
};
use sd_routes::{
    CollectorRow, RequestError, Said, WhichCollector, collector_page, collectors_page, found_page,
};
use std::alloc::AllocError;
use std::sync::Wait;
use std::sync::ledger::Ledger;
use std::time::Clock;

impl<R: Wait + Clock + Copy, L: Ledger, B: Ledger, N: JournalName> Handler<R, L, B, N> {
    /// The page of the live collectors.
    pub(crate) fn collectors(&self) -> Said
        ensures { SaysCollectors result }
    {
        match self.collectors_text() {
            Ok(text) => Said::Page(text),
            Err(_) => Said::Refused(RequestError::Memory),
        }
    }

    fn collectors_text(&self) -> Result<Text, AllocError>
        ensures { IfOk result IsCollectorsText }
    {
        let mut rows = self.rows()?;
        for row in rows.iter_mut() {
            row.last_take = self.state.last_asked(&self.rt, row.id);
        }
        collectors_page(self.alloc, rows.as_slice())
    }

    fn rows(&self) -> Result<Vec<CollectorRow>, AllocError> {
        let mut pass = self.pass.lock(&self.rt);
        self.desk.read(
            &self.rt,
            &mut *pass,
            |record| collector_rows(self.alloc, record.core()),
        )
    }

    /// The page of the live collector that is meant.
    pub(crate) fn one_collector(&self, seen: &mut Seen<N>, which: &WhichCollector) -> Said
        ensures says { SaysCollectorPage seen.new which.now result }
        ensures moves { Moves seen.old seen.new }
    {
        match self.row(seen, which) {
            Ok(Some(row)) => self.row_told(seen, which, row),
            Ok(None) => Said::Answer(Answer::Not(Refusal::UnknownCollector)),
            Err(_) => Said::Refused(RequestError::Memory),
        }
    }

    fn row_told(&self, seen: &Seen<N>, which: &WhichCollector, row: CollectorRow) -> Said
        requires { id_meant (now_of seen.now).state which.now ≡ Some row.id }
        ensures { SaysCollectorPage seen.now which.now result }
    {
        seen.now();
        let mut row = row;
        row.last_take = self.state.last_asked(&self.rt, row.id);
        match collector_page(self.alloc, &row) {
            Ok(text) => Said::Page(text),
            Err(_) => Said::Refused(RequestError::Memory),
        }
    }

    fn row(
        &self,
        seen: &mut Seen<N>,
        which: &WhichCollector,
    ) -> Result<Option<CollectorRow>, AllocError>
        ensures read { IfOk result (λ found. IfSome found (λ row. id_meant (now_of seen.new).state which.now ≡ Some row.id)) }
        ensures moves { Moves seen.old seen.new }
    {
        let mut pass = self.pass.lock(&self.rt);
        seen.latest.read(
            &self.rt,
            &self.desk,
            &mut *pass,
            |record| collector_meant(self.alloc, record.core(), which),
        )
    }

    /// The page of the allocations that were published last, the latest first.
    pub(crate) fn allocations(&self) -> Said
        ensures { SaysAllocations result }
    {
        match self.allocations_page() {
            Ok(text) => Said::Page(text),
            Err(_) => Said::Refused(RequestError::Memory),
        }
    }

    fn allocations_page(&self) -> Result<Text, AllocError>
        ensures { IfOk result IsAllocationsText }
    {
        let notes = self.state.notes(&self.rt, self.alloc)?;
        allocations_text(self.alloc, notes.allocations.as_slice())
    }

    /// The page of the live targets that have a text.
    pub(crate) fn found(&self, text: &str) -> Said
        ensures { SaysFound result }
    {
        match self.found_text(text) {
            Ok(text) => Said::Page(text),
            Err(_) => Said::Refused(RequestError::Memory),
        }
    }

    fn found_text(&self, text: &str) -> Result<Text, AllocError>
        ensures { IfOk result IsFoundText }
    {
        let numbers = self.matching(text)?;
        let found = self.found_among(numbers.as_slice())?;
        found_page(self.alloc, found.all, found.first.as_slice())
    }

    /// The numbers of the known targets that have a text. What is known is never changed, so they are looked at by and by.
    pub(crate) fn matching(&self, text: &str) -> Result<Vec<TargetId>, AllocError> {
        let mut numbers = Vec::new(self.alloc);
        let times = self.known_count() / LOOKED_AT_ONCE + 1;
        for time in 0..times {
            let from = time.saturating_mul(LOOKED_AT_ONCE);
            let more = self.matching_from(text, from)?;
            numbers.extend_from_slice(more.as_slice())?;
        }
        Ok(numbers)
    }

    fn known_count(&self) -> usize {
        let mut pass = self.pass.lock(&self.rt);
        self.desk.read(
            &self.rt,
            &mut *pass,
            |record| record.core().fleet().known().len(),
        )
    }

    fn matching_from(&self, text: &str, from: usize) -> Result<Vec<TargetId>, AllocError> {
        let mut pass = self.pass.lock(&self.rt);
        self.desk.read(
            &self.rt,
            &mut *pass,
            |record| matching(self.alloc, record.core(), text, from),
        )
    }

    /// Those of these targets that are live, at one moment.
    fn found_among(&self, numbers: &[TargetId]) -> Result<Found, AllocError>
        ensures { IfOk result (λ f. length f.first ≤ MOST_FOUND) }
    {
        let mut pass = self.pass.lock(&self.rt);
        self.desk.read(
            &self.rt,
            &mut *pass,
            |record| found_of(self.alloc, record.core(), numbers),
        )
    }
}
