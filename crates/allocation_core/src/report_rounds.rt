//! Of how many of the last rounds a report is booked.
ghost use Rattle.std.specs.Prelude.{◌≡◌};
ghost use Rattle.allocation_core.specs.State.{IsCount, counted};

use std::marker::Model;

/// The most rounds of which reports are booked. Of so many the books tell whether a report stands.
pub const MOST_REPORT_ROUNDS: u32 = 64;

/// Of how many of the last rounds a report is booked, the open one among them: 1 to 64. Contracts see the number.
#[derive(Clone, Copy, Debug, PartialEq, Eq)]
pub struct ReportRounds {
    count: u32,
}

impl Model for ReportRounds {
    ghost use Rattle.std.specs.Prelude.{ℕ};
    ghost use Rattle.allocation_core.specs.State.{IsCount};

    ghost Value = { ℕ };

    ghost view = { λ r. r.count };

    ghost invariant = { λ r. IsCount r.count };

    ghost inverse = { λ n. record { count = n } };
}

impl ReportRounds {
    /// The least number, 1: a report is booked of the open round alone.
    pub fn least() -> ReportRounds
        ensures { result ≡ 1 }
    {
        ReportRounds { count: 1 }
    }

    /// So many rounds, if they are 1 to 64.
    pub fn read(count: u32) -> Option<ReportRounds>
        ensures { result ≡ counted count }
    {
        if 1 <= count && count <= MOST_REPORT_ROUNDS {
            Some(ReportRounds { count })
        } else {
            None
        }
    }

    /// The number, 1 to 64.
    pub fn count(self) -> u32
        ensures value { result ≡ self }
        ensures is { IsCount self }
    {
        self.count
    }
}
