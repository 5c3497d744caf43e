//! What a verdict rests on.
ghost use Rattle.etcd_answers.specs.Laws.{KeptIsThere, NeverBoth, OthersSayNothing};

/// A block is told to be kept, though its transaction did not succeed, only where it is there and the term leads.
pub fn kept_is_there()
    ensures { KeptIsThere }
{}

/// No answer tells of a block both that it is kept and that its sender is deposed.
pub fn never_both()
    ensures { NeverBoth }
{}

/// Any status but 200 says nothing.
pub fn others_say_nothing()
    ensures { OthersSayNothing }
{}
