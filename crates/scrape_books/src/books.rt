//! The booked reports of each target, and their sums.
ghost use Rattle.std.specs.Prelude.{◌≡◌, ◌<◌, ◌+◌, ◌++◌, ◌∷◌, [], None, OnOk, OnErr, IfErr};
ghost use Rattle.scrape_books.specs.Books.{booking_refusal, is_booked, last_round_of, page_of, total_of, IsWhyNot};
ghost use Rattle.scrape_books.specs.Kept.{BookedOnce};
ghost use Rattle.scrape_books.specs.Standings.{IsBounded, IsStanding};

use crate::error::BooksError;
use crate::report::{Entry, Page};
use crate::standing::{Standing, entered, is_marked, is_past, make_room, standing_at};
use std::alloc::Global;
use std::marker::Model;

/// The booked entries beside their targets. A target is a number; numbers are to be given densely from 0, since
/// the books keep room for each number up to the greatest that is booked.
#[derive(Drop)]
pub struct Books {
    entries: Vec<(u32, Entry)>,
    /// Of each target by its number, up to the greatest that is booked.
    standings: Vec<Standing>,
    total: u128,
}

impl Model for Books {
    ghost use Rattle.std.specs.Prelude.{List, ℕ};
    ghost use Rattle.scrape_books.specs.declared.report.Entry.{Entry as AnyEntry};
    ghost use Rattle.scrape_books.specs.Kept.{IsKept};

    ghost Value = { List (ℕ × AnyEntry) };

    ghost view = { λ b. b.entries.items };

    ghost invariant = { λ b. IsKept b.entries.items b.standings.items b.total };
}

impl Books {
    /// Books with no entry. It takes no memory.
    pub fn open(alloc: Global) -> Books
        ensures { result ≡ [] }
    {
        Books {
            entries: Vec::new(alloc),
            standings: Vec::new(alloc),
            total: 0,
        }
    }

    /// Books an entry, of a round that is not booked for the target and at most 63 rounds before its last one. What is refused changes
    /// nothing.
    pub fn book(&mut self, target: u32, entry: Entry) -> Result<(), BooksError>
        ensures booked { OnOk result (self.new ≡ self.old ++ (target, entry) ∷ []) }
        ensures granted { OnOk result (booking_refusal self.old target entry.round ≡ None) }
        ensures refused { IfErr result (λ why. IsWhyNot (booking_refusal self.old target entry.round) why) }
        ensures err { OnErr result (self.new ≡ self.old) }
    {
        if let Some(why) = self.booking_refusal(target, entry.round) {
            return Err(why);
        }
        let standing = self.standing(target);
        self.entries.reserve(1)?;
        make_room(&mut self.standings, target)?;
        self.standings[target as usize] = entered(standing, entry);
        self.total += entry.outcome.samples() as u128;
        self.entries.push_reserved((target, entry));
        Ok(())
    }

    /// The first reason against an entry. It takes no memory and looks at no entry.
    fn booking_refusal(&self, target: u32, round: u32) -> Option<BooksError>
        ensures { result ≡ booking_refusal self.now target round }
    {
        let last = self.last_round(target);
        if is_past(last, round) {
            return Some(BooksError::Past(last));
        }
        if self.is_booked(target, round) {
            return Some(BooksError::AlreadyBooked);
        }
        None
    }

    /// Whether an entry of the target stands for the round, which is at most 63 rounds before the target's last one. It takes no memory
    /// and looks at no entry.
    pub fn is_booked(&self, target: u32, round: u32) -> bool
        ensures { last_round_of self.now target < round + 64 → result ≡ is_booked self.now target round }
    {
        is_marked(self.standing(target), round)
    }

    /// The greatest round of the target's entries, 0 where it has none. It takes no memory and looks at no entry.
    pub fn last_round(&self, target: u32) -> u32
        ensures { result ≡ last_round_of self.now target }
    {
        self.standing(target).last
    }

    /// The sums over the target's entries. It takes no memory and looks at no entry.
    pub fn page(&self, target: u32) -> Page
        ensures { result ≡ page_of self.now target }
    {
        self.standing(target).page
    }

    /// The samples of all entries. It takes no memory and looks at no entry.
    pub fn total(&self) -> u128
        ensures { result ≡ total_of self.now }
    {
        self.total
    }

    /// The entries beside their targets, in order of booking.
    pub fn entries(&self) -> &[(u32, Entry)]
        ensures { result.now ≡ self.now }
    {
        self.entries.as_slice()
    }

    fn standing(&self, target: u32) -> Standing
        ensures is { IsStanding self.now target result }
        ensures bounded { IsBounded result }
    {
        standing_at(self.standings.as_slice(), target)
    }
}

/// In all books the rounds of a target's entries differ: a target is booked at most once for a round.
pub fn booked_once(books: &Books)
    ensures { BookedOnce books.now }
{
    let _entries = &books.entries;
}
