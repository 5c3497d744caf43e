//! The row of one collector in a table of who reaches what.
ghost use Rattle.std.specs.Prelude.{◌≡◌, ◌≤◌, ◌<◌, ◌++◌, length, map, IfOk, OnOk, OnErr};
ghost use Rattle.reach_rules.specs.Table.{answered, answers, row_of, shown};

use crate::bits::BitRow;
use crate::has_target::HasTarget;
use crate::reach::Reach;
use lists::Plain;
use std::alloc::{AllocError, Global};

/// A collector that joined, and which of the targets it reaches, by their numbers.
#[derive(Drop)]
pub(crate) struct Row {
    pub(crate) id: u32,
    pub(crate) reach: Reach,
    pub(crate) reached: BitRow,
}

/// The row of a collector over these targets.
pub(crate) fn row_of<T: HasTarget>(
    alloc: Global,
    id: u32,
    reach: &Reach,
    targets: &[T],
) -> Result<Row, AllocError>
    ensures { IfOk result (λ row. shown row ≡ row_of id reach.now (map T.final_target targets.now)) }
{
    let reach = reach.copy()?;
    let mut reached = BitRow::new(alloc);
    reached.reserve(targets.len())?;
    push_answers(&mut reached, &reach, targets);
    Ok(Row { id, reach, reached })
}

/// The row of a collector that reaches these targets.
pub(crate) fn row_with(id: u32, reach: &Reach, reached: BitRow) -> Result<Row, AllocError>
    ensures { IfOk result (λ row. shown row ≡ record { id = id; rules = reach.now; reached = reached.bits }) }
{
    match reach.copy() {
        Ok(reach) => Ok(Row { id, reach, reached }),
        Err(error) => {
            drop(reached);
            Err(error)
        }
    }
}

/// Makes room for the answers for so many targets more.
pub(crate) fn make_room(row: &mut Row, more: usize) -> Result<(), AllocError>
    ensures same { shown row.new ≡ shown row.old }
    ensures ok { OnOk result (more ≤ row.new.reached.spare) }
    ensures full { OnErr result (row.old.reached.spare < more) }
{
    row.reached.reserve(more)
}

/// Adds the answers for these targets, for which there is room.
pub(crate) fn answer<T: HasTarget>(row: &mut Row, targets: &[T])
    requires { length targets.now ≤ row.old.reached.spare }
    ensures { shown row.new ≡ answered (map T.final_target targets.now) (shown row.old) }
{
    push_answers(&mut row.reached, &row.reach, targets);
}

/// Adds the answers of a reach for these targets, for which there is room.
fn push_answers<T: HasTarget>(reached: &mut BitRow, reach: &Reach, targets: &[T])
    requires { length targets.now ≤ reached.old.spare }
    ensures { reached.new.bits ≡ reached.old.bits ++ answers reach.now (map T.final_target targets.now) }
{
    match reach.answer_to_all() {
        Some(answer) => reached.push_all_reserved(targets.len(), answer),
        None => push_each_answer(reached, reach, targets),
    }
}

fn push_each_answer<T: HasTarget>(reached: &mut BitRow, reach: &Reach, targets: &[T])
    requires { length targets.now ≤ reached.old.spare }
    ensures { reached.new.bits ≡ reached.old.bits ++ answers reach.now (map T.final_target targets.now) }
{
    for target in targets {
        reached.push_reserved(reach.reaches(target.target()));
    }
}
