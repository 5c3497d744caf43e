//! The log of a desk's entries, which the proofs alone have: what threads share of it is its length.
ghost use Rattle.std.specs.Prelude.{◌≡◌, []};
ghost use Rattle.alloc_desk.specs.Log.{head_of};

use crate::front::Front;
use crate::name::DeskName;
use journal_entries::Entry;
use logbook::{Gain, Plain, Play, Rule, Seen, Start, Word};
use std::marker::{Model, PhantomData};

/// The rule of the log: its word is its length.
pub struct Law;

impl Rule<Entry, u64> for Law {
    ghost use Rattle.std.specs.Prelude.{[]};
    ghost use base.Fml.{ftrue};
    ghost use Rattle.alloc_desk.specs.Log.{IsKept};

    ghost holds = { λ cells log. IsKept cells log };

    ghost first = { [] };

    ghost hinted = { λ n log. Unit {0} };

    ghost shows = { λ log. [] };

    ghost keeps = { λ names log. ftrue };

    ghost moves = { λ ask before after answer. Unit {0} };
}

/// Who adds an entry trades nothing for it.
pub struct Nothing;

impl Gain<Entry, u64> for Nothing {
    ghost use base.Fml.{ftrue};

    ghost after = { λ names about answer. ftrue };
}

/// The step that adds an entry.
pub struct Add;

impl Play<Entry, u64> for Add {
    ghost use Rattle.alloc_desk.specs.Log.{Adds};

    ghost then = { Adds };
}

impl Plain<Entry, Entry, u64> for Add {
    ghost use Rattle.std.specs.Prelude.{None};

    ghost ask = { λ entry. entry };

    ghost state = { λ entry. None };
}

/// An empty log, with which a desk is opened. Contracts see which log it is.
#[derive(Drop)]
pub struct Log {
    head: Word<Entry, u64, Law>,
    seen: Seen<Entry, u64, Law>,
}

impl Model for Log {
    ghost use Rattle.std.specs.Prelude.{◌≡◌, []};
    ghost use Rattle.logbook.specs.Pages.{Book};
    ghost use Rattle.alloc_desk.specs.Log.{head_of};

    ghost Value = { Book };

    ghost view = { λ l. l.seen.book };

    ghost invariant = { λ l. (l.seen.log ≡ []) × (l.head ≡ head_of l.seen.book) };
}

impl Log {
    /// A new log, which is no other desk's.
    pub fn new() -> Log {
        let (seen, mut first, _second) = Seen::open(Start::alone(), 0, 0);
        Log {
            head: Word::tracked(0, &mut first),
            seen,
        }
    }

    /// Its word under a desk's name, and the front that has seen nothing.
    pub(crate) fn named<N: DeskName>(self) -> (Head<N>, Front<N>)
        requires { self ≡ N.book }
        ensures { result.1 ≡ [] }
    {
        let Log { head, seen } = self;
        (
            Head {
                word: head,
                of: PhantomData,
            },
            Front::first(seen),
        )
    }
}

/// How many entries the log of a desk has.
#[derive(Drop)]
pub(crate) struct Head<N: DeskName> {
    pub(crate) word: Word<Entry, u64, Law>,
    pub(crate) of: PhantomData<N>,
    ghost word_is: { word ≡ head_of N.book },
}
