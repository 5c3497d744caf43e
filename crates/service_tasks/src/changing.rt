//! What was asked of the fleet over HTTP, in the log.
use crate::logging::level_of;
use crate::shared::Shared;
use kept_journal::JournalName;
use lists::Text;
use log::{log, warn};
use logfmt::{Logfmt, Quoted};
use service_state::ChangeNote;
use std::alloc::{AllocError, Global};
use std::sync::Wait;
use std::sync::ledger::Ledger;
use std::time::Clock;

impl<R: Wait + Clock + Eprint + Copy, L: Ledger, B: Ledger, N: JournalName> Shared<R, L, B, N> {
    /// Logs what was asked of the fleet over HTTP since the last look.
    pub(crate) fn log_changes(&self) {
        let changes = self.state.take_changes(&self.rt);
        for note in &changes.notes {
            self.log_change(note);
        }
        if changes.dropped > 0 {
            self.log_dropped(changes.dropped);
        }
        drop(changes);
    }

    /// Logs a change with who asked for it: one that was refused as a warning.
    fn log_change(&self, note: &ChangeNote) {
        if let Ok(peer) = peer_of(self.alloc, note) {
            self.log_change_of(note, peer.as_str());
        }
    }

    fn log_change_of(&self, note: &ChangeNote, peer: &str) {
        let peer = Quoted(peer);
        let collector = Quoted(note.collector.as_str());
        let answer = Quoted(note.answer.as_str());
        let what = note.what.name();
        let level = level_of(note.is_refused());
        log!(Logfmt(self.rt); level, collector:% = collector, answer:% = answer, peer:% = peer; "{what} over HTTP");
    }

    fn log_dropped(&self, changes: u64) {
        warn!(Logfmt(self.rt); changes; "changes over HTTP that are not told one by one");
    }
}

/// Who asked for a change, in words.
fn peer_of(alloc: Global, note: &ChangeNote) -> Result<Text, AllocError> {
    match note.peer {
        Some(peer) => Ok(Text::from_string(format!(in alloc; "{peer}")?)),
        None => Text::from_str(alloc, "unknown"),
    }
}
