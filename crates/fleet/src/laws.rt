//! Laws above the definitions.
ghost use Rattle.fleet.specs.KnownTarget.{TargetsAreEntered};

/// Where a job's list is entered, those that were known keep their numbers, no target becomes known twice, and each target of
/// the list gets the number of the known target that is the same.
pub fn targets_are_entered()
    ensures { TargetsAreEntered }
{}
