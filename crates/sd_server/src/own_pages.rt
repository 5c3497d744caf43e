//! What the service tells of itself: how it is, its figures, and whether it reads its configuration again or stops.
ghost use Rattle.sd_server.specs.Entries.{Leads};
ghost use Rattle.sd_server.specs.Says.{SaysDocument, SaysLive, SaysMetrics, SaysQuit, SaysReady, SaysReload};

use crate::entry::{Entry, Reload};
use crate::handler::Handler;
use kept_journal::JournalName;
use lists::Text;
use page_rows::figures_of;
use sd_routes::{Notice, RequestError, Said};
use service_pages::{Shown, status_page};
use service_state::{Figures, Notes, metrics_page};
use std::alloc::AllocError;
use std::sync::Wait;
use std::sync::ledger::Ledger;
use std::time::Clock;

impl<R: Wait + Clock + Copy, L: Ledger, B: Ledger, N: JournalName> Handler<R, L, B, N> {
    pub(crate) fn live(&self) -> Said
        ensures { SaysLive result }
    {
        if self.state.is_broken() {
            return Said::Notice(Notice::Broken);
        }
        Said::Notice(Notice::Healthy)
    }

    pub(crate) fn ready(&self) -> Said
        ensures { SaysReady result }
    {
        if self.state.is_ready() {
            return Said::Notice(Notice::Ready);
        }
        Said::Notice(Notice::NotReady)
    }

    pub(crate) fn reload(&self) -> Entry<N>
        ensures { Leads N.keeps SaysReload result }
    {
        if !self.state.may_reload() {
            return Entry::Now(Said::Notice(Notice::NoLifecycle));
        }
        match self.state.reloading().ask(&self.rt) {
            Ok(told) => Entry::Reload(Reload {
                alloc: self.alloc,
                told,
            }),
            Err(_) => Entry::Now(Said::Refused(RequestError::Memory)),
        }
    }

    pub(crate) fn quit(&self) -> Said
        ensures { SaysQuit result }
    {
        if self.state.quit() {
            return Said::Notice(Notice::Quitting);
        }
        Said::Notice(Notice::NoLifecycle)
    }

    pub(crate) fn metrics(&self) -> Said
        ensures { SaysMetrics result }
    {
        match self.metrics_text() {
            Ok(text) => Said::Metrics(text),
            Err(_) => Said::Refused(RequestError::Memory),
        }
    }

    fn metrics_text(&self) -> Result<Text, AllocError> {
        self.count_connections();
        let (figures, notes) = self.figures_and_notes()?;
        let page = metrics_page(self.alloc, &figures, &notes, &**self.state);
        drop((figures, notes));
        page
    }

    fn figures_and_notes(&self) -> Result<(Figures, Notes), AllocError> {
        let figures = self.figures()?;
        match self.state.notes(&self.rt, self.alloc) {
            Ok(notes) => Ok((figures, notes)),
            Err(error) => {
                drop(figures);
                Err(error)
            }
        }
    }

    pub(crate) fn status(&self) -> Said
        ensures { SaysDocument result }
    {
        match self.status_text() {
            Ok(text) => Said::Document(text),
            Err(_) => Said::Refused(RequestError::Memory),
        }
    }

    fn status_text(&self) -> Result<Text, AllocError> {
        self.count_connections();
        let (figures, notes) = self.figures_and_notes()?;
        let page = self.status_page_of(&figures, &notes);
        drop((figures, notes));
        page
    }

    fn status_page_of(&self, figures: &Figures, notes: &Notes) -> Result<Text, AllocError> {
        let standing = self.state.standing(&self.rt, self.kept.is_some());
        let shown = Shown {
            figures,
            sources: notes.sources.as_slice(),
            allocations: notes.allocations.as_slice(),
            loads: notes.loads.as_slice(),
            asked: notes.asked.as_slice(),
            standing: &standing,
        };
        status_page(self.alloc, &shown)
    }

    /// Notes how many connections there are.
    fn count_connections(&self) {
        if let Some(own_loop) = &self.own_loop {
            let gate = &own_loop.gate;
            self.state.set_connections(gate.taken(), gate.most());
        }
    }

    fn figures(&self) -> Result<Figures, AllocError> {
        let mut pass = self.pass.lock(&self.rt);
        self.desk.read(
            &self.rt,
            &mut *pass,
            |record| figures_of(self.alloc, record.core(), record.journal().len()),
        )
    }
}
