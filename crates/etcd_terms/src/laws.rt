//! What holds over every list of answers.
ghost use Rattle.etcd_terms.specs.Laws.{AsksAScript, AsksWhatIsPosted, CountsWhatIsKept, OthersChangeNothing, OverIsSilent, UnknownAsksAgain};

use etcd_answers::kept_is_there;

/// Where nothing is known of a request, the very same is asked again.
pub fn unknown_asks_again()
    ensures { UnknownAsksAgain }
{}

/// Nothing is known by any status but 200.
pub fn others_change_nothing()
    ensures { OthersChangeNothing }
{}

/// Whoever leads no more asks nothing any more.
pub fn over_is_silent()
    ensures { OverIsSilent }
{}

/// A block counts as kept only by an answer that says that it was written, or that it is there with these bytes while the term leads.
pub fn counts_what_is_kept()
    ensures { CountsWhatIsKept }
{
    kept_is_there()
}

/// What is posted is what the laws of a store speak of.
pub fn asks_what_is_posted()
    ensures { AsksWhatIsPosted }
{}

/// Over every list of wishes and answers each request is made for the store as those before it leave it.
pub fn asks_a_script()
    ensures { AsksAScript }
{}
