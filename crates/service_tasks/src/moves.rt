//! What moved from whom to whom with an allocation that was published.
use allocation_core::Core;
use fleet_events::{AllocationNumber, CollectorId, TargetId};
use lists::{List, Text};
use service_state::MoveNote;
use std::alloc::{AllocError, Global};
use std::cmp::Ordering;

/// How many rows are told of an allocation at most.
const MOST_MOVES: usize = 32;

/// Targets of a job that moved alike.
#[derive(Clone, Copy)]
struct Moves {
    /// The place of the job in the configuration.
    job: usize,
    from: CollectorId,
    to: Option<CollectorId>,
    count: u64,
}

/// What moved from whom to whom with the allocation of a number, which is the current one: the first rows in order of the jobs' names, and then of
/// the collectors'. A live target has moved where a live collector held it in the allocation before, and does not hold it in this one.
pub(crate) fn moves_of(
    alloc: Global,
    core: &Core,
    number: AllocationNumber,
) -> Result<List<MoveNote>, AllocError> {
    let moves = first_moves(alloc, core, number)?;
    move_notes(alloc, core, moves.as_slice())
}

fn first_moves(
    alloc: Global,
    core: &Core,
    number: AllocationNumber,
) -> Result<Vec<Moves>, AllocError> {
    let live = core.fleet().live_marks()?;
    let mut moves = Vec::new(alloc);
    for (place, is_live) in live.iter().enumerate() {
        if *is_live {
            if let Some(row) = move_of(core, place, number) {
                add_move(core, &mut moves, row)?;
            }
        }
    }
    Ok(moves)
}

/// How the live target of a number moved, if it did.
fn move_of(core: &Core, place: usize, number: AllocationNumber) -> Option<Moves> {
    let target = TargetId::try_from(place).ok()?;
    let job = core.fleet().known().get(place)?.job;
    let from = core.holder(number.saturating_sub(1), target)?;
    let to = core.holder(number, target);
    if to == Some(from) || !core.fleet().is_joined(from) {
        return None;
    }
    Some(Moves {
        job,
        from,
        to,
        count: 1,
    })
}

/// Counts one more target among those that moved alike. Where there are too many rows the last one is left out for good: from then on as many stand before
/// it as are told, so each of these counts all that moved alike.
fn add_move(core: &Core, rows: &mut Vec<Moves>, row: Moves) -> Result<(), AllocError> {
    match rows.binary_search_by(|other| order_of(core, other, &row)) {
        Ok(place) => count_at(rows.as_mut_slice(), place),
        Err(place) => insert_at(rows, place, row)?,
    }
    rows.truncate(MOST_MOVES);
    Ok(())
}

fn count_at(rows: &mut [Moves], place: usize) {
    if let Some(row) = rows.get_mut(place) {
        row.count = row.count.saturating_add(1);
    }
}

fn insert_at(rows: &mut Vec<Moves>, place: usize, row: Moves) -> Result<(), AllocError> {
    if place <= rows.len() {
        rows.insert(place, row)?;
    }
    Ok(())
}

/// Which of two rows is told first.
fn order_of(core: &Core, row: &Moves, other: &Moves) -> Ordering {
    match job_name(core, row.job).cmp(job_name(core, other.job)) {
        Ordering::Equal => order_of_names(core, row, other),
        order => order,
    }
}

fn order_of_names(core: &Core, row: &Moves, other: &Moves) -> Ordering {
    match name_of(core, row.from).cmp(name_of(core, other.from)) {
        Ordering::Equal => goal_name(core, row.to).cmp(goal_name(core, other.to)),
        order => order,
    }
}

fn job_name(core: &Core, place: usize) -> &str {
    match core.fleet().jobs().get(place) {
        Some(job) => job.name.as_str(),
        None => "",
    }
}

/// The name of a collector, which is empty where it has left.
fn name_of(core: &Core, id: CollectorId) -> &str {
    let collectors = core.collectors();
    match collectors.binary_search_by(|collector| collector.id.cmp(&id)) {
        Ok(place) => match collectors.get(place) {
            Some(collector) => collector.name.as_str(),
            None => "",
        },
        Err(_) => "",
    }
}

/// The same, and empty for nobody.
fn goal_name(core: &Core, to: Option<CollectorId>) -> &str {
    match to {
        Some(id) => name_of(core, id),
        None => "",
    }
}

fn move_notes(alloc: Global, core: &Core, rows: &[Moves]) -> Result<List<MoveNote>, AllocError> {
    let mut notes = List::new(alloc);
    for row in rows {
        notes.push(move_note(alloc, core, row)?)?;
    }
    Ok(notes)
}

fn move_note(alloc: Global, core: &Core, row: &Moves) -> Result<MoveNote, AllocError> {
    let job = Text::from_str(alloc, job_name(core, row.job))?;
    let from = Text::from_str(alloc, name_of(core, row.from))?;
    let to = name_if_any(alloc, goal_name(core, row.to))?;
    Ok(MoveNote {
        job,
        from,
        to,
        count: row.count,
    })
}

fn name_if_any(alloc: Global, name: &str) -> Result<Option<Text>, AllocError> {
    if name.is_empty() {
        return Ok(None);
    }
    Ok(Some(Text::from_str(alloc, name)?))
}
