//! What of a journal is found again.
ghost use Rattle.durable_journal.specs.Events.{SaysAll};
ghost use Rattle.durable_journal.specs.Files.{AcceptsFile, BeginsFile, GrowsFile, SurvivesInFile};
ghost use Rattle.durable_journal.specs.Kept.{KeptInParts, LeaveOutRefused};
ghost use Rattle.durable_journal.specs.Journals.{Accepts, AcceptsFirst, Grows, IgnoresTorn, Resumes, Settles, Survives};

/// Of a file of whole lines and a torn end without a line feed, exactly the whole lines are found.
#[tactic(auto, using(crate::proofs::WholeParts::settles))]
pub fn settles()
    ensures { Settles }
{}

/// A journal grows by what `journal_lines` writes, and its text leads to the state after all its events.
pub fn journals_resume()
    ensures grows { Grows }
    ensures resumes { Resumes }
{}

/// Whatever beginning of the last append a crash left: what is found again is the state after all events of the journal and a
/// beginning of those that were being appended. So no event that was appended before is lost; nor is what a crash left refused.
pub fn journals_survive()
    ensures torn { IgnoresTorn }
    ensures survives { Survives }
    ensures accepts { Accepts }
    ensures accepts_first { AcceptsFirst }
{}

/// The same of the file, whose lines have digests or, where it was begun before there were digests, have none: what `recover` finds in it
/// is the text of a journal of those events, and what is to be known to go on behind it.
pub fn files_survive()
    ensures said { SaysAll }
    ensures begins { BeginsFile }
    ensures grows { GrowsFile }
    ensures survives { SurvivesInFile }
    ensures accepts { AcceptsFile }
{}

/// The events of a desk that were not refused lead to the same state as all of them, also where they are written some at once.
pub fn refused_are_left_out()
    ensures same { LeaveOutRefused }
    ensures parts { KeptInParts }
{}
