//! Collectors that ask for their list and are not live, or are drained since they were absent: they join anew.
use crate::differences::collector_named;
use crate::logging::{log_of_name, log_of_number, log_warning};
use crate::roster::{Roster, join_of, joining};
use crate::shared::Shared;
use alloc_desk::Pass;
use allocation_core::Core;
use fleet_events::{CollectorId, Event};
use kept_journal::JournalName;
use lists::Plain;
use log::Level;
use reach_rules::CollectorName;
use service_settings::{Collector, JoiningPattern};
use std::alloc::{AllocError, Global};
use std::sync::Wait;
use std::sync::ledger::Ledger;
use std::time::Clock;

impl<R: Wait + Clock + Eprint + Copy, L: Ledger, B: Ledger, N: JournalName> Shared<R, L, B, N> {
    /// Notes the names of the live collectors, so that they are told to let go once they have left.
    pub(crate) fn remember_names(&self, pass: &mut Pass<L, B, N>) {
        self.desk.read(&self.rt, pass, |record| {
            for collector in record.core().fleet().collectors() {
                self.state
                    .note_live(&self.rt, collector.name.as_str(), collector.id);
            }
        });
    }

    /// Has those collectors join whose list was asked for, and that are not live: those of the configuration, and those that match a
    /// pattern of it.
    pub(crate) fn let_rejoin(&self, pass: &mut Pass<L, B, N>, roster: &Roster) {
        let names = self.state.take_absent(&self.rt);
        for name in names.iter() {
            self.let_join(pass, roster, name.as_str());
        }
        drop(names);
    }

    fn let_join(&self, pass: &mut Pass<L, B, N>, roster: &Roster, name: &str) {
        if let Some(collector) = collector_named(roster.listed(), name) {
            if self.rejoin {
                self.join_anew(pass, collector);
            }
        } else if let Some(pattern) = pattern_of(roster.patterns(), name) {
            self.join_by_pattern(pass, name, pattern);
        }
    }

    fn join_by_pattern(&self, pass: &mut Pass<L, B, N>, name: &str, pattern: &JoiningPattern) {
        match joining_by(self.alloc, name, pattern) {
            Ok(Some(event)) => {
                self.log_asking_by_pattern(name);
                self.enter_told(pass, name, event);
            }
            Ok(None) => {}
            Err(_) => log_warning(&self.rt, "no memory to have a collector join, tried again"),
        }
    }

    fn join_anew(&self, pass: &mut Pass<L, B, N>, collector: &Collector) {
        let name = collector.name.as_str();
        match joining(collector) {
            Ok(event) => {
                self.log_asking(name);
                self.enter_told(pass, name, event);
            }
            Err(_) => log_warning(&self.rt, "no memory to have a collector join, tried again"),
        }
    }

    /// A collector that was drained since it was absent asks again: it leaves, and joins anew with what it has.
    pub(crate) fn take_back(&self, pass: &mut Pass<L, B, N>, collector: CollectorId) {
        let joins = self.desk.read(&self.rt, pass, |record| {
            joining_again(record.core(), collector)
        });
        match joins {
            Ok(Some(event)) => self.exchange(pass, collector, event),
            Ok(None) => {}
            Err(_) => log_warning(&self.rt, "no memory to have a collector join, tried again"),
        }
    }

    fn exchange(&self, pass: &mut Pass<L, B, N>, collector: CollectorId, joins: Event) {
        let line = "a collector that was absent asks again: it joins anew";
        log_of_number(&self.rt, Level::Info, collector, line);
        if self.enter_numbered(pass, collector, Event::Leave(collector)) {
            self.enter_numbered(pass, collector, joins);
        } else {
            drop(joins);
        }
    }

    fn log_asking_by_pattern(&self, name: &str) {
        let line = "a collector that matches a pattern asks for its list: it joins";
        log_of_name(&self.rt, Level::Info, name, line);
    }

    fn log_asking(&self, name: &str) {
        let line = "a collector of the configuration asks for its list: it joins";
        log_of_name(&self.rt, Level::Info, name, line);
    }
}

/// The first pattern that a name matches.
fn pattern_of<'a>(patterns: &'a [JoiningPattern], name: &str) -> Option<&'a JoiningPattern> {
    patterns.iter().find(|pattern| pattern.matches(name))
}

/// The join of a collector of this name by a pattern.
fn joining_by(
    alloc: Global,
    name: &str,
    pattern: &JoiningPattern,
) -> Result<Option<Event>, AllocError> {
    let Ok(name) = CollectorName::read(alloc, name) else {
        return Ok(None);
    };
    Ok(Some(join_of(name, &pattern.reach, &pattern.limits)?))
}

/// The join of a live collector, once it has left.
fn joining_again(core: &Core, id: CollectorId) -> Result<Option<Event>, AllocError> {
    for collector in core.fleet().collectors() {
        if collector.id == id {
            let name = collector.name.copy()?;
            return Ok(Some(join_of(name, &collector.reach, &collector.limits)?));
        }
    }
    Ok(None)
}
