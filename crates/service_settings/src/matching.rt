//! Whether a name matches a pattern with stars. Only the last star is gone back to, so the time is that of the product of the lengths.
ghost use Rattle.std.specs.Prelude.{[], ◌∷◌};
ghost use Rattle.service_settings.specs.JoiningPattern.{Tells};

/// The byte that stands for any bytes.
const STAR: u8 = b'*';

/// What a pattern is to a name.
#[derive(Clone, Copy, Debug, PartialEq, Eq)]
pub(crate) enum Outcome {
    Matches,
    /// It does not match.
    Fails,
    /// It does not match, and no end of the name either: a star before it is not gone back to.
    FailsBehind,
}

/// What a pattern is to a name.
#[cycle(outcome)]
#[tactic(auto, using(crate::proofs::Ends::tells_star, crate::proofs::Ends::tells_same))]
pub(crate) fn outcome_of(pattern: &[u8], name: &[u8]) -> Outcome
    ensures { Tells pattern.now name.now result }
{
    let Some((wanted, rest)) = pattern.split_first() else {
        return outcome_at_end(name);
    };
    if *wanted == STAR {
        return outcome_behind_star(rest, name);
    }
    let Some((found, others)) = name.split_first() else {
        return Outcome::FailsBehind;
    };
    if *wanted != *found {
        return Outcome::Fails;
    }
    outcome_of(rest, others)
}

/// Where nothing is left of the pattern.
fn outcome_at_end(name: &[u8]) -> Outcome
    ensures { Tells [] name.now result }
{
    if name.is_empty() {
        Outcome::Matches
    } else {
        Outcome::Fails
    }
}

/// Where a star stands before the pattern.
#[cycle(outcome)]
#[tactic(auto, using(crate::proofs::Ends::star_matches, crate::proofs::Ends::star_fails, crate::proofs::Ends::star_spent, crate::proofs::Ends::star_goes_on))]
fn outcome_behind_star(pattern: &[u8], name: &[u8]) -> Outcome
    ensures { Tells (42 ∷ pattern.now) name.now result }
{
    let mut left = name;
    loop {
        match outcome_of(pattern, left) {
            Outcome::Matches => return Outcome::Matches,
            Outcome::FailsBehind => return Outcome::FailsBehind,
            Outcome::Fails => {}
        }
        match left.split_first() {
            Some((_first, others)) => left = others,
            None => return Outcome::FailsBehind,
        }
    }
}
