//! The lines of an audit.
ghost use Rattle.std.specs.Prelude.{◌≡◌, ◌++◌, IfOk, OnErr, OnOk, length, string_bytes};
ghost use Rattle.scrape_books.specs.Books.{total_of};
ghost use Rattle.audit.specs.Tallies.{uncovered};
ghost use Rattle.audit.specs.Audits.{books_part, events_part, fault_line, journal_line, whole_line, why_name};

use crate::fault::{Fault, Why};
use crate::uncovered::uncovered;
use allocation_core::Core;
use replay_lines::Resumption;
use std::alloc::{AllocError, Global};

/// Writes the line of a journal that leads here.
pub(crate) fn write_journal(
    alloc: Global,
    file: usize,
    end: &Resumption,
    text: &mut Vec<u8>,
) -> Result<(), AllocError>
    ensures text { OnOk result (text.new.items ≡ text.old.items ++ journal_line file end.now) }
    ensures memory { OnErr result (text.new.items ≡ text.old.items) }
{
    let events = events_part(alloc, file, end.events, end.core.current())?;
    let books = books_part(alloc, &end.core)?;
    let (events, books) = (events.as_str(), books.as_str());
    let line = format!(in alloc; "{events}{books}")?;
    text.extend_from_slice(line.as_bytes())?;
    Ok(())
}

fn events_part(
    alloc: Global,
    file: usize,
    events: u64,
    allocations: u32,
) -> Result<String, AllocError>
    ensures { IfOk result (λ s. string_bytes s ≡ events_part file events allocations) }
{
    format!(in alloc; "file={file} events={events} allocations={allocations}")
}

/// What a state has in its books, and how many live targets nobody holds.
fn books_part(alloc: Global, core: &Core) -> Result<String, AllocError>
    ensures { IfOk result (λ s. string_bytes s ≡ books_part (length core.now.booked) (total_of core.now.booked) (uncovered core.now)) }
{
    let booked = core.reports();
    let total = core.total();
    let uncovered = uncovered(core)?;
    format!(in alloc; " booked={booked} total={total} uncovered={uncovered}\n")
}

/// Writes the line of a journal's fault.
pub(crate) fn write_fault(
    alloc: Global,
    file: usize,
    fault: Fault,
    text: &mut Vec<u8>,
) -> Result<(), AllocError>
    ensures text { OnOk result (text.new.items ≡ text.old.items ++ fault_line file fault) }
    ensures memory { OnErr result (text.new.items ≡ text.old.items) }
{
    let number = fault.line;
    let why = why_name(fault.why);
    let line = format!(in alloc; "inconsistent file={file} line={number} {why}\n")?;
    text.extend_from_slice(line.as_bytes())?;
    Ok(())
}

fn why_name(why: Why) -> &'static str
    ensures { result.now ≡ why_name why }
{
    match why {
        Why::Unreadable => "Unreadable",
        Why::WrongDigest => "WrongDigest",
        Why::BadJobs => "BadJobs",
        Why::TooManyBins => "TooManyBins",
        Why::RoundsSpent => "RoundsSpent",
        Why::OtherState => "OtherState",
    }
}

/// Writes the line of so many journals without a fault.
pub(crate) fn write_whole(
    alloc: Global,
    files: usize,
    events: u64,
    total: u128,
    text: &mut Vec<u8>,
) -> Result<(), AllocError>
    ensures text { OnOk result (text.new.items ≡ text.old.items ++ whole_line files events total) }
    ensures memory { OnErr result (text.new.items ≡ text.old.items) }
{
    let line = format!(in alloc; "consistent files={files} events={events} total={total}\n")?;
    text.extend_from_slice(line.as_bytes())?;
    Ok(())
}
