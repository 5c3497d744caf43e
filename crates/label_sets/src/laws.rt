//! Laws of label sets and of targets.
ghost use Rattle.label_sets.specs.Laws.{SetGivesText, RemoveGivesNoText, SetKeepsSets, RemoveKeepsSets, AlikeAreEqual, LastIsPutLast, FinishesAgain, TextDecides, TextDecidesAnswers};

/// Label sets are finite maps: what they answer after a change, that a change leaves a set, that two sets that answer alike
/// are equal, and that a set is made of its labels in order.
pub fn map_laws()
    ensures set { SetGivesText }
    ensures remove { RemoveGivesNoText }
    ensures set_keeps { SetKeepsSets }
    ensures remove_keeps { RemoveKeepsSets }
    ensures alike { AlikeAreEqual }
    ensures last { LastIsPutLast }
{}

/// A target's labels, finished again at its address, give the target.
pub fn finishes_again()
    ensures { FinishesAgain }
{}

/// Two targets with equal texts are equal, so they answer alike for every name. Thus the text may stand for
/// the target.
pub fn text_decides()
    ensures target { TextDecides }
    ensures answers { TextDecidesAnswers }
{}
