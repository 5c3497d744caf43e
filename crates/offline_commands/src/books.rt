//! The command `books`: what is booked of each target in some journals.
ghost use Rattle.std.specs.Prelude.{◌≡◌};
ghost use Rattle.offline_commands.specs.BookTable.{TellsBooks, table_status};

use crate::ending::{Ending, Status, Stop};
use crate::journals::{read_journals, tell_fault};
use crate::output::{write_last, write_stop};
use book_tables::books_table;
use lists::List;
use std::alloc::Global;
use std::fs::File;
use std::io::Write;
use std::rt::Files;

/// Writes what is booked of each target in the journals of some files. A file that is not read is told on standard error.
pub fn books_of_files<R: Files<File = File> + Eprint, W: Write>(
    rt: &R,
    alloc: Global,
    paths: &[&str],
    writer: &mut W,
) -> Ending {
    match read_journals(rt, alloc, paths) {
        Ok(journals) => run_books(alloc, journals.as_slice(), writer),
        Err(fault) => tell_fault(rt, fault, writer),
    }
}

/// Writes what is booked of each target in some journals: a line for each target of each, up to the first journal that is not read.
pub fn run_books<W: Write>(alloc: Global, journals: &[List<u8>], writer: &mut W) -> Ending
    ensures { TellsBooks journals.now (W.contents writer.old) (W.contents writer.new) result }
{
    match books_table(alloc, journals) {
        Ok(table) => {
            let ending = Ending::Answered(table_status(table.is_whole));
            write_last(writer, table.text.as_bytes(), ending)
        }
        Err(_) => write_stop(writer, &[], Stop::Memory),
    }
}

fn table_status(is_whole: bool) -> Status
    ensures { result ≡ table_status is_whole }
{
    if is_whole {
        Status::Done
    } else {
        Status::Unreadable
    }
}
