//! What the turns of a round come to together.
ghost use Rattle.std.specs.Prelude.{◌≡◌, ◌+◌, ◌<◌, ◌≤◌, ◌^◌};
ghost use Rattle.session.specs.Lines.{no_sums, sums_from, with_turn};

use collector_pool::Turn;

/// The sums over turns.
#[derive(Clone, Copy, PartialEq, Eq)]
pub struct Sums {
    /// How many reports were booked.
    pub booked: u128,
    /// How many were refused.
    pub refused: u128,
    /// The samples of those that were booked.
    pub samples: u128,
}

/// The sums over these turns.
pub fn sums_of(turns: &[Turn]) -> Sums
    ensures { result ≡ sums_from no_sums turns.now }
{
    let mut sums = Sums {
        booked: 0,
        refused: 0,
        samples: 0,
    };
    for turn in turns {
        sums = with(sums, turn);
    }
    sums
}

/// One turn more.
fn with(sums: Sums, turn: &Turn) -> Sums
    requires booked { sums.booked + 2 ^ 32 ≤ 2 ^ 128 }
    requires refused { sums.refused + 2 ^ 32 ≤ 2 ^ 128 }
    requires samples { sums.samples + 2 ^ 64 ≤ 2 ^ 128 }
    ensures sums { result ≡ with_turn sums turn.now }
    ensures booked { result.booked < sums.booked + 2 ^ 32 }
    ensures refused { result.refused < sums.refused + 2 ^ 32 }
    ensures samples { result.samples < sums.samples + 2 ^ 64 }
{
    Sums {
        booked: sums.booked + u128::from(turn.booked),
        refused: sums.refused + u128::from(turn.refused),
        samples: sums.samples + u128::from(turn.samples),
    }
}
