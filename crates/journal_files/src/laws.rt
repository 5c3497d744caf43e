//! What the bytes of a file lead to.
ghost use Rattle.journal_files.specs.Leading.{FoundLead};

/// What is found of a file, where it leads to an allocator and has no empty line behind the first, is the file of a journal that leads to this
/// allocator, once what follows its whole lines is cut off.
#[tactic(auto, using(crate::proofs::Leading::found_lead))]
pub fn found_lead()
    ensures { FoundLead }
{}
