//! Laws above the definitions.
ghost use Rattle.spread_certificate.specs.Even.{NoSlackIsEvenest};
ghost use Rattle.spread_certificate.specs.Judged.{NoBestFaultIsCertified};
ghost use Rattle.spread_certificate.specs.Loads.{LevelledIsEvenest};
ghost use Rattle.spread_certificate.specs.Within.{BestIsBare, BothAreBestWithin, CapsCostNothing, PricesCarryOver};

/// What is judged the best twice, once with nothing before and once within the caps, is the best within the caps.
pub fn both_are_best_within()
    ensures { BothAreBestWithin }
{}

/// Caps into which one assignment fits that covers the most and leaves the fewest cost no coverage.
pub fn caps_cost_nothing()
    ensures { CapsCostNothing }
{}

/// Prices where nothing was before certify each assignment that covers and leaves as many.
pub fn prices_carry_over()
    ensures { PricesCarryOver }
{}

/// A best assignment is so where nothing was before.
pub fn best_is_bare()
    ensures { BestIsBare }
{}

/// Levels and prices prove an assignment the most even of those that cover and leave as many.
pub fn levelled_is_evenest()
    ensures { LevelledIsEvenest }
{}

/// A plan whose collectors have no more than in a witness that is as even as any is as even too.
pub fn no_slack_is_evenest()
    ensures { NoSlackIsEvenest }
{}

/// A spread has no fault before its levels exactly where both of its prices certify its plan.
pub fn no_best_fault_is_certified()
    ensures { NoBestFaultIsCertified }
{}
