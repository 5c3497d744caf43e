//! What is told of the allocations that were published last.
ghost use Rattle.std.specs.Prelude.{◌≡◌, IfOk, map};
ghost use Rattle.serde_json.specs.Written.{compact_text};
ghost use Rattle.json_values.specs.Spelling.{list_data};
ghost use Rattle.sd_routes.specs.AllocationPages.{allocation_data};
ghost use Rattle.page_rows.specs.Allocations.{allocation_row, move_row};

use lists::{List, Plain, Text};
use sd_routes::{AllocationRow, MoveRow, allocations_page};
use service_pages::{AllocationNote, MoveNote};
use std::alloc::{AllocError, Global};

/// The page of noted allocations: an entry for each, in their order.
pub fn allocations_text(alloc: Global, notes: &[AllocationNote]) -> Result<Text, AllocError>
    ensures { IfOk result (λ t. t ≡ compact_text (list_data allocation_data (map allocation_row notes.now))) }
{
    let rows = allocation_rows(alloc, notes)?;
    allocations_page(alloc, rows.as_slice())
}

fn allocation_rows(
    alloc: Global,
    notes: &[AllocationNote],
) -> Result<List<AllocationRow>, AllocError>
    ensures { IfOk result (λ l. l ≡ map allocation_row notes.now) }
{
    let mut rows = List::new(alloc);
    for note in notes {
        rows.push(row_of(alloc, note)?)?;
    }
    Ok(rows)
}

fn row_of(alloc: Global, note: &AllocationNote) -> Result<AllocationRow, AllocError>
    ensures { IfOk result (λ row. row ≡ allocation_row note.now) }
{
    let published = note.at.copy()?;
    let moves = move_rows(alloc, note.moves.as_slice())?;
    Ok(AllocationRow {
        number: note.number,
        published,
        covered: note.covered,
        moved: note.moved,
        left: note.left,
        milliseconds: note.milliseconds,
        moves,
        more_moves: note.more_moves,
    })
}

fn move_rows(alloc: Global, notes: &[MoveNote]) -> Result<List<MoveRow>, AllocError>
    ensures { IfOk result (λ l. l ≡ map move_row notes.now) }
{
    let mut rows = List::new(alloc);
    for note in notes {
        rows.push(move_row_of(note)?)?;
    }
    Ok(rows)
}

fn move_row_of(note: &MoveNote) -> Result<MoveRow, AllocError>
    ensures { IfOk result (λ row. row ≡ move_row note.now) }
{
    let job = note.job.copy()?;
    let from = note.from.copy()?;
    let to = note.to.copy()?;
    Ok(MoveRow {
        job,
        from,
        to,
        count: note.count,
    })
}
