//! Laws above the definitions.
ghost use Rattle.std.specs.Prelude.{ℕ, List};
ghost use Rattle.price_certificate.specs.Problem.{Problem, IsProblem};
ghost use Rattle.price_certificate.specs.Assignment.{IsOptimal};
ghost use Rattle.price_certificate.specs.Certificate.{IsCertified};
ghost use Rattle.price_certificate.specs.Faults.{NoFaultIsCertified, PriceFaultIsLeast, WorthIsByLevel};

/// Weak duality: prices that certify an assignment prove it optimal, among all feasible assignments.
pub fn certified_is_optimal()
    ensures { (p : Problem) (pairs : List (ℕ × ℕ)) (item_prices bin_prices : List ℕ) → IsProblem p → IsCertified p pairs item_prices bin_prices → IsOptimal p pairs }
{}

/// What an assignment is worth, by what it covers, leaves at draining bins and keeps.
pub fn worth_is_by_level()
    ensures { WorthIsByLevel }
{}

/// A plan has no fault exactly where its prices certify it.
pub fn no_fault_is_certified()
    ensures { NoFaultIsCertified }
{}

/// The pair that is told as priced too low is the one of the least item, and of that the least bin.
pub fn price_fault_is_least()
    ensures { PriceFaultIsLeast }
{}
