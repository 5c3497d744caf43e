//! Which desk it is.
ghost use Rattle.std.specs.Prelude.{◌≡◌, ℕ, []};
ghost use Rattle.logbook.specs.Pages.{Book};
ghost use Rattle.allocation_core.specs.State.{State, first_state};

use std::marker::{Brand, PhantomData};
use std::sync::ledger::Ledger;

/// Which desk it is: the state that it was opened with, the number of its passes, and the log behind its fronts. Passes and fronts fit the
/// desk of their name alone.
pub trait DeskName {
    ghost opening: { State };

    ghost seats: { ℕ };

    ghost book: { Book };
}

impl DeskName for Brand {
    ghost opening = { first_state [] 1 };

    ghost seats = { 0 };

    ghost book = { record { number = 0; log_name = 0; cells_name = 0 } };
}

/// The ledger has a part for each seat. It stands apart from the shares, beside which no fact may name a ledger's parts.
#[derive(Drop)]
pub(crate) struct Fits<L: Ledger, N: DeskName> {
    pub(crate) of: PhantomData<(L, N)>,
    ghost all_parts: { L.parts ≡ N.seats },
}
