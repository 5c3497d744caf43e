//! Laws of the store.
ghost use Rattle.etcd_laws.specs.Laws.{AnswersStay, BlocksStay, DeposedChangesNothing, DeposedForGood, EpochsRise, OverIsOver, RemovalsAreOnce, TheLeaderAlone};
ghost use Rattle.etcd_laws.specs.Meaning.{RequestsAreTransactions};
ghost use Rattle.etcd_laws.specs.Scripts.{EachIsDoneOnce};

/// Whoever does not lead changes nothing.
pub fn deposed_changes_nothing()
    ensures { DeposedChangesNothing }
{}

/// Whoever does not lead when his lease has ended changes nothing ever more, though copies of his claim and of his requests come.
pub fn deposed_for_good()
    ensures { DeposedForGood }
{}

/// As long as the lease lasts, the store is what the requests of the one who leads make of it.
pub fn the_leader_alone()
    ensures { TheLeaderAlone }
{}

/// No epoch goes on again.
pub fn epochs_rise()
    ensures { EpochsRise }
{}

/// What names an epoch that is over changes nothing ever more.
pub fn over_is_over()
    ensures { OverIsOver }
{}

/// A block stays at its place, and those before it, whatever comes, but for a removal that names one of them as it stands.
pub fn blocks_stay()
    ensures { BlocksStay }
{}

/// A block that was kept stays with its bytes, and copies of its request change nothing.
pub fn answers_stay()
    ensures { AnswersStay }
{}

/// A removal that was done changes nothing ever more.
pub fn removals_are_once()
    ensures { RemovalsAreOnce }
{}

/// What a leader asks is done once and in its order, however late and often copies come.
pub fn each_is_done_once()
    ensures { EachIsDoneOnce }
{}

/// A request passes exactly where all that its transaction compares holds, and does what its transaction does: the laws are of what is posted.
pub fn requests_are_transactions()
    ensures { RequestsAreTransactions }
{}
