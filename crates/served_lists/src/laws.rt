//! Laws above the definitions: the slots tell the lists that were served last.
ghost use Rattle.served_lists.specs.Told.{FreeIsListed, GrowingTells, LeftOutForAnother, LetGoIsForgotten, LetGoIsFree, LettingGoTells, ListsAreDisjoint, NoneTell, ServedAnewIsFree, ServingTells};
ghost use Rattle.served_lists.specs.Anew.{RenewedTells};

/// Of no slots the lists are empty.
pub fn none_tell()
    ensures { NoneTell }
{}

/// Where a collector is served a list, that list is the one served and the others stay.
pub fn serving_tells()
    ensures { ServingTells }
{}

/// Where lists are let go, these are empty and the others stay.
pub fn letting_go_tells()
    ensures { LettingGoTells }
{}

/// Where more targets become known, the lists stay.
pub fn growing_tells()
    ensures { GrowingTells }
{}

/// No target stands in two lists.
pub fn lists_are_disjoint()
    ensures { ListsAreDisjoint }
{}

/// What a list leaves out stands in a list of another collector, of the same job.
pub fn left_out_for_another()
    ensures { LeftOutForAnother }
{}

/// What no list has is served to who holds it.
pub fn free_is_listed()
    ensures { FreeIsListed }
{}

/// What a list had that is let go, no list has.
pub fn let_go_is_free()
    ensures { LetGoIsFree }
{}

/// Where lists are let go, these are of no allocation any more, and the others of the one that they were of.
pub fn let_go_is_forgotten()
    ensures { LetGoIsForgotten }
{}

/// What a list had, no list has once its collector is served it anew and no longer holds the target.
pub fn served_anew_is_free()
    ensures { ServedAnewIsFree }
{}

/// Where targets and jobs are numbered anew, the lists are those of before in the new numbers.
pub fn renewed_tells()
    ensures { RenewedTells }
{}
