//! What a request has seen of the journal.
ghost use Rattle.std.specs.Prelude.{◌≡◌, IsTrue};
ghost use Rattle.sd_server.specs.Spans.{Moves, at_once};

use alloc_desk::{DeskName, Front};
use std::marker::Model;

/// What was seen of the journal when a request came, and what has been seen of it now. Whatever the request is told is of this journal.
#[derive(Drop)]
pub struct Seen<N: DeskName> {
    since: Front<N>,
    pub(crate) latest: Front<N>,
}

impl<N: DeskName> Model for Seen<N> {
    ghost use Rattle.std.specs.Prelude.{◌≡◌};
    ghost use mathlib.Core.List.{IsPrefix};
    ghost use Rattle.sd_server.specs.Spans.{Span};

    ghost Value = { Span };

    ghost view = { λ s. record { opening = N.opening; before = s.since; after = s.latest } };

    ghost invariant = { λ s. IsPrefix s.since s.latest };
}

impl<N: DeskName> Seen<N> {
    /// This has been seen when a request comes.
    pub fn of(front: Front<N>) -> Seen<N>
        ensures { result ≡ record { opening = N.opening; before = front; after = front } }
    {
        Seen {
            since: front.again(),
            latest: front,
        }
    }

    /// What had been seen when the request came.
    pub fn since(&self) -> &Front<N>
        ensures front { result.now ≡ self.now.before }
        ensures opening { self.now.opening ≡ N.opening }
    {
        &self.since
    }

    /// What has been seen now.
    pub fn now(&self) -> &Front<N>
        ensures front { result.now ≡ self.now.after }
        ensures opening { self.now.opening ≡ N.opening }
        ensures stays { Moves self.now self.now }
    {
        &self.latest
    }
    /// Whether nothing was entered since the request came, as far as has been seen.
    pub(crate) fn is_still(&self) -> bool
        ensures { IsTrue result → self.now ≡ at_once N.opening self.now.after }
    {
        self.since.len() == self.latest.len()
    }
}
