//! The table of some journals.
ghost use Rattle.std.specs.Prelude.{IfOk, string_bytes};
ghost use Rattle.book_tables.specs.Tables.{Adds, ByText, table_of};

use crate::journal::push_journal;
use lists::List;
use std::alloc::{AllocError, Global};

/// The lines of a table.
#[derive(Drop)]
pub struct Table {
    pub text: String,
    /// Whether each journal is read. Where one is not, the last line says which, and where.
    pub is_whole: bool,
}

/// The table of some journals: of each a line for each target that it knows, in order of its number, which is an object of JSON. Behind a journal
/// that is not read nothing stands but a line that says so.
pub fn books_table(alloc: Global, journals: &[List<u8>]) -> Result<Table, AllocError>
    ensures { IfOk result (λ t. ByText t (table_of 0 journals.now)) }
{
    let mut text = String::new(alloc);
    let is_whole = push_journals(alloc, &mut text, journals)?;
    Ok(Table { text, is_whole })
}

/// Adds what is told of each journal up to the first that is not read, and says whether there is none.
fn push_journals(
    alloc: Global,
    text: &mut String,
    journals: &[List<u8>],
) -> Result<bool, AllocError>
    ensures { IfOk result (λ b. Adds (string_bytes text.old) (string_bytes text.new) b (table_of 0 journals.now)) }
{
    for i in 0..journals.len() {
        if !push_journal(alloc, text, i + 1, journals[i].as_slice())? {
            return Ok(false);
        }
    }
    Ok(true)
}
