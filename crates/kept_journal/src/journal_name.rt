//! Which desk it is, and what is kept of its journal.
use alloc_desk::DeskName;
use std::marker::Brand;

/// Which desk it is, and what it is that the device of its journal keeps a beginning of it.
pub trait JournalName: DeskName {
    ghost use Rattle.std.specs.Prelude.{List};
    ghost use Rattle.journal_entries.specs.declared.entry.Entry.{Entry};

    ghost keeps: { List Entry → Type 0 };
}

impl JournalName for Brand {
    ghost keeps = { λ entries. Unit {0} };
}
