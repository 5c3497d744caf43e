//! What is told of one journal.
ghost use Rattle.std.specs.Prelude.{◌≡◌, ◌<◌, IfOk, string_bytes};
ghost use Rattle.book_tables.specs.Tables.{Adds, fault_table, journal_table, plain_table, rows_table};

use crate::row::push_row;
use allocation_core::Core;
use replay_lines::resume;
use sealed_lines::{is_sealed, unsealed};
use std::alloc::{AllocError, Global};

/// Adds the rows of a journal, and says whether it is read. Where it is not, a line that says so is added.
#[tactic(auto, unfolding(crate::specs::Tables::journal_table))]
pub(crate) fn push_journal(
    alloc: Global,
    text: &mut String,
    file: usize,
    journal: &[u8],
) -> Result<bool, AllocError>
    ensures { IfOk result (λ b. Adds (string_bytes text.old) (string_bytes text.new) b (journal_table file journal.now)) }
{
    if !is_sealed(journal) {
        return push_plain(alloc, text, file, journal);
    }
    match unsealed(alloc, journal)? {
        Ok(plain) => push_plain(alloc, text, file, plain.text.as_slice()),
        Err(wrong) => push_fault(alloc, text, file, wrong.line, "WrongDigest"),
    }
}

/// The same of a journal without digests.
#[tactic(auto, unfolding(crate::specs::Tables::plain_table))]
fn push_plain(
    alloc: Global,
    text: &mut String,
    file: usize,
    journal: &[u8],
) -> Result<bool, AllocError>
    ensures { IfOk result (λ b. Adds (string_bytes text.old) (string_bytes text.new) b (plain_table file journal.now)) }
{
    match resume(alloc, journal)? {
        Ok(resumption) => push_rows(alloc, text, file, &resumption.core),
        Err(damage) => push_fault(alloc, text, file, damage.line, "Unreadable"),
    }
}

fn push_fault(
    alloc: Global,
    text: &mut String,
    file: usize,
    line: u64,
    why: &str,
) -> Result<bool, AllocError>
    ensures { IfOk result (λ b. Adds (string_bytes text.old) (string_bytes text.new) b (fault_table file line why.now)) }
{
    let fault = format!(in alloc; "unreadable file={file} line={line} {why}\n")?;
    text.push_str(fault.as_str())?;
    Ok(false)
}

/// Adds a row for each target that an allocator knows.
fn push_rows(alloc: Global, text: &mut String, file: usize, core: &Core) -> Result<bool, AllocError>
    ensures { IfOk result (λ b. Adds (string_bytes text.old) (string_bytes text.new) b (rows_table file core.now)) }
{
    let jobs = core.fleet().jobs();
    let known = core.fleet().known();
    for number in 0..known.len() {
        push_row(
            alloc,
            text,
            file,
            core.books(),
            jobs,
            id_of(number),
            &known[number],
        )?;
    }
    Ok(true)
}

/// The number of a target at a place.
fn id_of(place: usize) -> u32
    requires { place < 4294967296 }
    ensures { result ≡ place }
{
    place as u32
}
