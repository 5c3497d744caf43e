//! What is wrong with a journal.
ghost use Rattle.std.specs.Prelude.{◌≡◌};
ghost use Rattle.audit.specs.Checks.{unreadable, wrong_digest};

use replay_lines::Damage;
use sealed_lines::WrongDigest;

/// Where a journal is not what it should be, and why.
#[derive(Clone, Copy, Debug, PartialEq, Eq)]
pub(crate) struct Fault {
    /// The number of the line, from 1.
    pub(crate) line: u64,
    pub(crate) why: Why,
}

#[derive(Clone, Copy, Debug, PartialEq, Eq)]
pub(crate) enum Why {
    /// The line says no event, or it is the first and opens no allocator.
    Unreadable,
    /// The line's digest is not that of it and of the lines before it.
    WrongDigest,
    /// A renewal under the jobs of the first line is refused.
    BadJobs,
    TooManyBins,
    RoundsSpent,
    /// The first line opens another state than the renewal.
    OtherState,
}

pub(crate) fn unreadable(damage: Damage) -> Fault
    ensures { result ≡ unreadable damage }
{
    Fault {
        line: damage.line,
        why: Why::Unreadable,
    }
}

pub(crate) fn wrong_digest(wrong: WrongDigest) -> Fault
    ensures { result ≡ wrong_digest wrong }
{
    Fault {
        line: wrong.line,
        why: Why::WrongDigest,
    }
}
