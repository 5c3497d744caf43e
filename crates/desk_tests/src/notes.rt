//! What passes are told, and what is said of it.
use alloc_desk::{ReallocateError, Reallocated, Receipt, SpreadError};
use allocation_core::{Answer, Event, Refusal};
use journal_entries::Entry;
use lists::Text;
use std::alloc::{AllocError, Global};

/// Events, each beside its receipt.
pub(crate) type Told = Vec<(Event, Receipt)>;

/// What passes were told, a text of all that their steps came to, each with a semicolon behind it, and the count of their calls.
#[derive(Drop)]
pub(crate) struct Notes {
    pub(crate) told: Told,
    pub(crate) said: String,
    pub(crate) calls: u64,
}

impl Notes {
    pub(crate) fn new(alloc: Global) -> Notes {
        Notes {
            told: Vec::new(alloc),
            said: String::new(alloc),
            calls: 0,
        }
    }

    /// Takes an event with its receipt.
    pub(crate) fn takes(&mut self, alloc: Global, event: Event, receipt: Receipt) -> bool {
        if !self.answers(alloc, &receipt.answer) {
            drop((event, receipt));
            return false;
        }
        self.told.push((event, receipt)).is_ok()
    }

    pub(crate) fn answers(&mut self, alloc: Global, answer: &Answer) -> bool {
        self.writes(answer.line(alloc))
    }

    fn writes(&mut self, text: Result<String, AllocError>) -> bool {
        match text {
            Ok(text) => self.says(text.as_str()),
            Err(_) => false,
        }
    }

    pub(crate) fn says(&mut self, text: &str) -> bool {
        self.said.push_str(text).is_ok() && self.said.push_str(";").is_ok()
    }

    /// What a reallocation came to.
    pub(crate) fn ends(
        &mut self,
        alloc: Global,
        ended: Result<Reallocated, ReallocateError>,
    ) -> bool {
        match ended {
            Ok(Reallocated::Published(number)) => self.answers(alloc, &Answer::Published(number)),
            Ok(Reallocated::Unchanged(number)) => {
                self.answers(alloc, &Answer::Not(Refusal::Unchanged(number)))
            }
            Err(ReallocateError::Overtaken(None)) => self.says("Overtaken"),
            Err(_) => false,
        }
    }

    /// What a reallocation that makes loads even came to.
    pub(crate) fn ends_spread(
        &mut self,
        alloc: Global,
        ended: Result<Reallocated, SpreadError>,
    ) -> bool {
        match ended {
            Ok(reallocated) => self.ends(alloc, Ok(reallocated)),
            Err(SpreadError::Overtaken(None)) => self.says("Overtaken"),
            Err(_) => false,
        }
    }

    /// Each entry: whose event it is, the event and its answer.
    pub(crate) fn lists(&mut self, alloc: Global, entries: &[Entry]) -> bool {
        for entry in entries {
            if !self.lists_one(alloc, entry) {
                return false;
            }
        }
        self.says("end")
    }

    fn lists_one(&mut self, alloc: Global, entry: &Entry) -> bool {
        let seat = entry.seat;
        self.writes(format!(in alloc; "{seat}"))
            && self.names(entry.event.to_json(alloc))
            && self.answers(alloc, &entry.answer)
    }

    fn names(&mut self, event: Result<Text, AllocError>) -> bool {
        match event {
            Ok(event) => self.says(event.as_str()),
            Err(_) => false,
        }
    }

    /// What another pass was told behind it.
    pub(crate) fn adds(&mut self, others: Notes) -> bool {
        let Notes {
            mut told,
            said,
            calls,
        } = others;
        self.calls = self.calls.saturating_add(calls);
        self.said.push_str(said.as_str()).is_ok() && self.told.append(&mut told).is_ok()
    }
}
