//! Events that a service enters of itself.
use crate::control::Ending;
use crate::logging::{level_of, log_warning};
use crate::shared::Shared;
use crate::told_source::ToldSource;
use alloc_desk::{EnterError, Pass};
use fleet_events::{Answer, CollectorId, Event};
use kept_journal::JournalName;
use log::{info, log, warn};
use logfmt::{Logfmt, Quoted, QuotedUrl};
use service_state::EventKind;
use std::alloc::AllocError;
use std::sync::Wait;
use std::sync::ledger::Ledger;
use std::time::Clock;

impl<R: Wait + Clock + Eprint + Copy, L: Ledger, B: Ledger, N: JournalName> Shared<R, L, B, N> {
    /// What an event is answered. None where it was not entered: the desk is closed for that, or
    /// nothing is entered any more, or it is logged.
    pub(crate) fn enter(&self, pass: &mut Pass<L, B, N>, event: Event) -> Option<Answer> {
        if self.is_broken() {
            drop(event);
            return None;
        }
        let kind = EventKind::of(&event);
        match self.desk.submit(&self.rt, pass, event) {
            Ok(receipt) => {
                self.state.count_event(&self.rt, kind, &receipt.answer);
                Some(receipt.answer)
            }
            Err(EnterError::JournalFull) => {
                self.control.end(&self.rt, Ending::Full);
                None
            }
            Err(EnterError::Memory) => {
                log_warning(&self.rt, "no memory for an event");
                None
            }
        }
    }

    /// Enters an event of the collector of a name, logs what it is answered, and says whether it was entered.
    pub(crate) fn enter_told(
        &self,
        pass: &mut Pass<L, B, N>,
        collector: &str,
        event: Event,
    ) -> bool {
        match self.enter(pass, event) {
            Some(answer) => {
                self.log_of_name(collector, &answer);
                drop(answer);
                true
            }
            None => false,
        }
    }

    /// The same of the collector of a number, which may have left.
    pub(crate) fn enter_numbered(
        &self,
        pass: &mut Pass<L, B, N>,
        collector: CollectorId,
        event: Event,
    ) -> bool {
        match self.enter(pass, event) {
            Some(answer) => {
                self.log_of_number(collector, &answer);
                drop(answer);
                true
            }
            None => false,
        }
    }

    /// Enters what a collector of the configuration begins with. The service does not begin without it.
    pub(crate) fn enter_first(
        &self,
        pass: &mut Pass<L, B, N>,
        collector: &str,
        event: Event,
    ) -> Result<(), AllocError> {
        if self.enter_told(pass, collector, event) {
            Ok(())
        } else {
            Err(AllocError)
        }
    }

    /// Enters what a source lists, and logs what it changes. Whether it was refused; None where it was not entered.
    pub(crate) fn enter_list(
        &self,
        pass: &mut Pass<L, B, N>,
        source: ToldSource<'_>,
        event: Event,
    ) -> Option<bool> {
        match self.enter(pass, event) {
            Some(answer) => {
                self.log_of_source(source, &answer);
                let refused = is_refused(&answer);
                drop(answer);
                Some(refused)
            }
            None => None,
        }
    }

    /// Whether what is entered cannot be kept.
    pub(crate) fn is_broken(&self) -> bool {
        match &self.kept {
            Some(kept) => kept.is_broken(&self.rt),
            None => false,
        }
    }

    /// Logs what the event of a collector was answered: a refusal as a warning.
    fn log_of_name(&self, collector: &str, answer: &Answer) {
        if let Ok(line) = answer.line(self.alloc) {
            self.log_answer_of_name(collector, line.as_str(), is_refused(answer));
        }
    }

    fn log_answer_of_name(&self, collector: &str, answer: &str, is_refused: bool) {
        let collector = Quoted(collector);
        let answer = Quoted(answer);
        let what = word_of(is_refused);
        let level = level_of(is_refused);
        log!(Logfmt(self.rt); level, collector:% = collector, answer:% = answer; "{what}");
    }

    /// The same of the collector of a number.
    pub(crate) fn log_of_number(&self, collector: CollectorId, answer: &Answer) {
        if let Ok(line) = answer.line(self.alloc) {
            self.log_answer_of_number(collector, line.as_str(), is_refused(answer));
        }
    }

    fn log_answer_of_number(&self, collector: CollectorId, answer: &str, is_refused: bool) {
        let answer = Quoted(answer);
        let what = word_of(is_refused);
        let level = level_of(is_refused);
        log!(Logfmt(self.rt); level, collector, answer:% = answer; "{what}");
    }

    /// Logs what a list of a source changed, if it did, and a refusal as a warning.
    fn log_of_source(&self, source: ToldSource<'_>, answer: &Answer) {
        if let Answer::Discovered { added, removed } = answer {
            self.log_discovered(source, *added, *removed);
        } else if let Ok(line) = answer.line(self.alloc) {
            self.log_refused_list(source, line.as_str());
        }
    }

    fn log_discovered(&self, source: ToldSource<'_>, added: u32, removed: u32) {
        if added == 0 && removed == 0 {
            return;
        }
        let job = Quoted(source.job);
        let url = QuotedUrl(source.url);
        let number = source.number;
        info!(Logfmt(self.rt); job:% = job, source = number, url:% = url, added, removed; "targets discovered");
    }

    fn log_refused_list(&self, source: ToldSource<'_>, answer: &str) {
        let job = Quoted(source.job);
        let url = QuotedUrl(source.url);
        let answer = Quoted(answer);
        let number = source.number;
        warn!(Logfmt(self.rt); job:% = job, source = number, url:% = url, answer:% = answer; "refused");
    }
}

fn is_refused(answer: &Answer) -> bool {
    matches!(answer, Answer::Not(_))
}

fn word_of(is_refused: bool) -> &'static str {
    if is_refused { "refused" } else { "entered" }
}
