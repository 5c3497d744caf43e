//! What the books keep of a target beside its entries.
ghost use Rattle.std.specs.Prelude.{◌≡◌, ◌≢◌, ◌==◌, ◌||◌, ◌<◌, ◌≤◌, ◌+◌, ◌-◌, ℕ, max, slice_index_or, vec_len, OnOk};
ghost use Rattle.std.specs.Int.{bit_at};
ghost use Rattle.scrape_books.specs.Books.{is_past};
ghost use Rattle.scrape_books.specs.Standings.{no_standing, is_marked, page_with, IsBounded};

use crate::report::{Entry, Outcome, Page};
use std::alloc::AllocError;

/// Of how many rounds a standing tells whether they are booked, the last one among them.
const ROUNDS_TOLD: u32 = u64::BITS;

/// What the books keep of a target beside its entries.
#[derive(Clone, Copy)]
pub(crate) struct Standing {
    /// The greatest round of an entry, 0 where there is none.
    pub(crate) last: u32,
    /// Bit i says whether the round `last - i` is booked.
    pub(crate) rounds: u64,
    pub(crate) page: Page,
}

/// The standing of a target with no entry.
pub(crate) fn unbooked() -> Standing
    ensures { result ≡ no_standing }
{
    Standing {
        last: 0,
        rounds: 0,
        page: Page {
            reports: 0,
            ups: 0,
            samples: 0,
        },
    }
}

/// The standing of a target by its number. One past the last has no entry.
pub(crate) fn standing_at(standings: &[Standing], target: u32) -> Standing
    ensures { result ≡ slice_index_or standings.now target no_standing }
{
    match standings.get(target as usize) {
        Some(standing) => *standing,
        None => unbooked(),
    }
}

/// Adds standings with no entry up to a target's.
pub(crate) fn make_room(standings: &mut Vec<Standing>, target: u32) -> Result<(), AllocError>
    ensures same { (other : ℕ) → slice_index_or standings.new.items other no_standing ≡ slice_index_or standings.old.items other no_standing }
    ensures room { OnOk result (target < vec_len standings.new) }
{
    let wanted = target as usize + 1;
    if standings.len() < wanted {
        standings.resize(wanted, unbooked())?;
    }
    Ok(())
}

/// Whether a round is none, or so long before the last one that no standing tells of it.
pub(crate) fn is_past(last: u32, round: u32) -> bool
    ensures { result ≡ is_past last round }
{
    round == 0 || ROUNDS_TOLD <= last.saturating_sub(round)
}

/// Whether the standing tells that the round is booked.
pub(crate) fn is_marked(standing: Standing, round: u32) -> bool
    ensures { result ≡ is_marked standing.last standing.rounds round }
{
    if round > standing.last {
        return false;
    }
    let back = standing.last - round;
    back < ROUNDS_TOLD && (standing.rounds >> back) & 1 == 1
}

/// The standing with one more entry, of a round that is not past.
pub(crate) fn entered(standing: Standing, entry: Entry) -> Standing
    requires bounded { IsBounded standing }
    requires near { standing.last < entry.round + 64 }
    requires room { standing.page.reports < max standing.last entry.round }
    ensures last { result.last ≡ max standing.last entry.round }
    ensures rounds { (round : ℕ) → result.last < round + 64 → is_marked result.last result.rounds round ≡ (is_marked standing.last standing.rounds round || (entry.round == round)) }
    ensures page { result.page ≡ page_with standing.page entry }
    ensures bounded { IsBounded result }
{
    let page = standing.page;
    let ups = match entry.outcome {
        Outcome::Up(_) => page.ups + 1,
        Outcome::Down => page.ups,
    };
    Standing {
        last: standing.last.max(entry.round),
        rounds: with_round(standing.last, standing.rounds, entry.round),
        page: Page {
            reports: page.reports + 1,
            ups,
            samples: page.samples + entry.outcome.samples() as u64,
        },
    }
}

/// The bits with one more round, which may be the last one from now on.
fn with_round(last: u32, rounds: u64, round: u32) -> u64
    requires { last < round + 64 }
    ensures { (other : ℕ) → max last round < other + 64 → is_marked (max last round) result other ≡ (is_marked last rounds other || (round == other)) }
{
    if round > last {
        with_bit(moved(rounds, round - last), 0)
    } else {
        with_bit(rounds, last - round)
    }
}

/// The bits, each so many places higher. What falls out is forgotten.
fn moved(rounds: u64, up: u32) -> u64
    ensures low { (place : ℕ) → place < up → place < 64 → bit_at result place ≡ 0 }
    ensures high { (place : ℕ) → up ≤ place → place < 64 → bit_at result place ≡ bit_at rounds (place - up) }
{
    if up < ROUNDS_TOLD { rounds << up } else { 0 }
}

/// The bits with that of a place set.
fn with_bit(rounds: u64, place: u32) -> u64
    requires { place < 64 }
    ensures put { bit_at result place ≡ 1 }
    ensures others { (other : ℕ) → other < 64 → other ≢ place → bit_at result other ≡ bit_at rounds other }
{
    rounds | 1 << place
}
