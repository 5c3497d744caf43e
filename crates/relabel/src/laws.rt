//! Laws above the definitions.
ghost use Rattle.relabel.specs.Defaults.{DefaultsMayBeLeftOut};

/// A rule that spells out the defaults of its members is the rule that leaves them out.
pub fn defaults_may_be_left_out()
    ensures { DefaultsMayBeLeftOut }
{}
