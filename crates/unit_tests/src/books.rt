//! Entries are booked, refused and summed.
use crate::instances::is_copied;
use lists::Plain;
use scrape_books::{Books, BooksError, Entry, Outcome, Page, booked_once};
use std::alloc::{AllocError, Global};
use std::test::Fail;

/// An entry of collector 9, which scraped by allocation 8.
fn entry(round: u32, outcome: Outcome) -> Entry {
    Entry {
        round,
        number: 8,
        collector: 9,
        outcome,
    }
}

/// What books are tried for.
#[derive(Clone, Copy)]
enum Tried {
    TwoTargets,
    NoOther,
    Refusals,
    EarlierRounds,
}

/// Whether books of these entries do what they are tried for.
fn pass(alloc: Global, entries: &[(u32, Entry)], tried: Tried) -> Result<bool, BooksError> {
    let mut books = Books::open(alloc);
    for (target, entry) in entries {
        books.book(*target, *entry)?;
    }
    Ok(does(&mut books, entries, tried))
}

fn does(books: &mut Books, entries: &[(u32, Entry)], tried: Tried) -> bool {
    match tried {
        Tried::TwoTargets => are_two_targets(books, entries),
        Tried::NoOther => knows_no_other(books),
        Tried::Refusals => refuses_rounds(books),
        Tried::EarlierRounds => has_earlier_rounds(books),
    }
}

/// Whether the books have this page of a target, and this last round of it.
fn has_page(books: &Books, target: u32, last_round: u32, page: Page) -> bool {
    books.last_round(target) == last_round && books.page(target) == page
}

fn page(reports: u32, ups: u32, samples: u64) -> Page {
    Page {
        reports,
        ups,
        samples,
    }
}

#[test]
fn books_two_targets(rt: HostRuntime) -> Result<(), Fail> {
    let entries = [
        (0, entry(1, Outcome::Up(7))),
        (3, entry(1, Outcome::Down)),
        (0, entry(4, Outcome::Up(u32::MAX))),
    ];
    assert!(rt; pass(rt.alloc(), entries.as_slice(), Tried::TwoTargets)?);
    Ok(())
}

fn are_two_targets(books: &Books, entries: &[(u32, Entry)]) -> bool {
    booked_once(books);
    has_page(books, 0, 4, page(2, 2, 4_294_967_302))
        && has_page(books, 3, 1, page(1, 0, 0))
        && books.total() == 4_294_967_302
        && books.entries() == entries
}

#[test]
fn knows_no_other_target(rt: HostRuntime) -> Result<(), Fail> {
    assert!(rt; is_empty(rt.alloc()));
    assert!(rt; pass(rt.alloc(), &[(3, entry(2, Outcome::Up(5)))], Tried::NoOther)?);
    Ok(())
}

fn is_empty(alloc: Global) -> bool {
    Books::open(alloc).total() == 0
}

fn knows_no_other(books: &Books) -> bool {
    has_page(books, 2, 0, page(0, 0, 0)) && has_page(books, 4, 0, page(0, 0, 0))
}

#[test]
fn refuses_a_round_twice(rt: HostRuntime) -> Result<(), Fail> {
    assert!(rt;
        pass(
            rt.alloc(),
            &[
                (2, entry(3, Outcome::Up(1))),
                (2, entry(70, Outcome::Up(1)))
            ],
            Tried::Refusals
        )?
    );
    Ok(())
}

fn refuses_rounds(books: &mut Books) -> bool {
    is_twice(books, 2, entry(70, Outcome::Up(9)))
        && is_past(books, 2, entry(6, Outcome::Down), 70)
        && is_past(books, 2, entry(3, Outcome::Down), 70)
        && is_past(books, 5, entry(0, Outcome::Up(9)), 0)
        && books.entries().len() == 2
        && books.total() == 2
}

/// Whether the entry is refused, since its round is booked.
fn is_twice(books: &mut Books, target: u32, entry: Entry) -> bool {
    match books.book(target, entry) {
        Err(BooksError::AlreadyBooked) => true,
        _ => false,
    }
}

/// Whether the entry is refused, since its round is too long before this one, the target's last.
fn is_past(books: &mut Books, target: u32, entry: Entry, last: u32) -> bool {
    match books.book(target, entry) {
        Err(BooksError::Past(round)) => round == last,
        _ => false,
    }
}

#[test]
fn books_earlier_rounds(rt: HostRuntime) -> Result<(), Fail> {
    let entries = [
        (1, entry(9, Outcome::Up(1))),
        (1, entry(7, Outcome::Up(2))),
        (1, entry(8, Outcome::Down)),
        (1, entry(71, Outcome::Up(4))),
        (1, entry(64, Outcome::Up(8))),
    ];
    assert!(rt; pass(rt.alloc(), entries.as_slice(), Tried::EarlierRounds)?);
    Ok(())
}

fn has_earlier_rounds(books: &mut Books) -> bool {
    has_page(books, 1, 71, page(5, 4, 15))
        && books.is_booked(1, 8)
        && books.is_booked(1, 64)
        && !books.is_booked(1, 63)
        && !books.is_booked(1, 72)
        && is_twice(books, 1, entry(9, Outcome::Down))
        && is_past(books, 1, entry(7, Outcome::Down), 71)
}

#[test]
fn says_why_it_is_refused(rt: HostRuntime) -> Result<(), Fail> {
    assert!(rt; is_said(rt.alloc())?);
    Ok(())
}

fn is_said(alloc: Global) -> Result<bool, AllocError> {
    match format!(in alloc; "{}", BooksError::Past(3)) {
        Ok(refusal) => {
            Ok(refusal.as_str() == "the round is too long before round 3, the target's last one")
        }
        Err(error) => Err(error),
    }
}

#[test]
fn copies_are_the_same(rt: HostRuntime) -> Result<(), Fail> {
    let up = Outcome::Up(7);
    assert!(rt; is_copied(&entry(1, up))? && is_copied(&up)?);
    assert!(rt; !entry(1, up).same(&entry(1, Outcome::Down)));
    assert!(rt; up.samples() == 7 && Outcome::Down.samples() == 0);
    Ok(())
}
