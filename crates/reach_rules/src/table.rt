//! Which of the collectors that joined reach which of the targets that appeared, as a table of bits.
ghost use Rattle.std.specs.Prelude.{◌≡◌, ◌<◌, ◌≤◌, ◌==◌, ◌++◌, ◌∷◌, [], not, filter, length, map, IfOk, OnOk, OnErr};
ghost use Rattle.reach_rules.specs.Table.{answered, is_reached, is_reached_at, reached_in, row_as, row_like, row_of, rows_without, shown, spare_in};
ghost use Rattle.reach_rules.specs.declared.row.Row.{Row};

use crate::bits::BitRow;
use crate::has_target::HasTarget;
use crate::reach::Reach;
use crate::row::{Row, answer, make_room, row_of, row_with};
use std::alloc::{AllocError, Global};
use std::marker::Model;

/// Which collectors reach which targets: each collector's rules are asked once about each target. Contracts see a row of answers
/// for each collector in order of joining, and how many targets more can appear without memory.
#[derive(Drop)]
pub struct ReachTable {
    alloc: Global,
    rows: Vec<Row>,
}

impl Model for ReachTable {
    ghost use Rattle.reach_rules.specs.Table.{TableState, table_of};

    ghost Value = { TableState };

    ghost view = { λ t. table_of t.rows.items };
}

impl ReachTable {
    /// Nobody joined. It takes no memory.
    pub fn open(alloc: Global) -> ReachTable
        ensures { result.rows ≡ [] }
    {
        ReachTable {
            alloc,
            rows: Vec::new(alloc),
        }
    }

    /// Makes room for so many targets more.
    pub fn room(&mut self, more: usize) -> Result<(), AllocError>
        ensures rows { self.new.rows ≡ self.old.rows }
        ensures ok { OnOk result (more ≤ self.new.spare) }
    {
        make_room_in(self.rows.as_mut_slice(), more)
    }

    /// Targets appear, with the next numbers. Memory is wanted only where they are more than there is room for.
    pub fn appear<T: HasTarget>(&mut self, targets: &[T]) -> Result<(), AllocError>
        ensures ok { OnOk result (self.new.rows ≡ map (answered (map T.final_target targets.now)) self.old.rows) }
        ensures err { OnErr result (self.new.rows ≡ self.old.rows) }
        ensures full { OnErr result (self.old.spare < length targets.now) }
    {
        make_room_in(self.rows.as_mut_slice(), targets.len())?;
        answer_in(self.rows.as_mut_slice(), targets);
        Ok(())
    }

    /// A collector joins. It is given all targets that appeared, in order of number.
    pub fn join<T: HasTarget>(
        &mut self,
        id: u32,
        reach: &Reach,
        targets: &[T],
    ) -> Result<(), AllocError>
        ensures ok { OnOk result (self.new.rows ≡ self.old.rows ++ row_of id reach.now (map T.final_target targets.now) ∷ []) }
        ensures err { OnErr result (self.new.rows ≡ self.old.rows) }
    {
        let row = row_of(self.alloc, id, reach, targets)?;
        self.rows.push(row)?;
        Ok(())
    }

    /// A collector joins, and its rules are not asked: it reaches what the collector at a place of another table does. The targets are those of
    /// that table at these numbers, in this order.
    pub fn join_as(
        &mut self,
        id: u32,
        reach: &Reach,
        from: &ReachTable,
        place: usize,
        numbers: &[usize],
    ) -> Result<(), AllocError>
        ensures ok { OnOk result (self.new.rows ≡ self.old.rows ++ row_as id reach.now from.now.rows place numbers.now ∷ []) }
        ensures err { OnErr result (self.new.rows ≡ self.old.rows) }
    {
        let reached = reached_at(self.alloc, from, place, numbers)?;
        let row = row_with(id, reach, reached)?;
        self.rows.push(row)?;
        Ok(())
    }

    /// A collector joins, and its rules are not asked: it reaches what the collector at a place does, in order of joining.
    pub fn join_like(&mut self, id: u32, reach: &Reach, place: usize) -> Result<(), AllocError>
        ensures ok { OnOk result (self.new.rows ≡ self.old.rows ++ row_like id reach.now self.old.rows place ∷ []) }
        ensures err { OnErr result (self.new.rows ≡ self.old.rows) }
    {
        let reached = reached_like(self.alloc, self.rows.as_slice(), place)?;
        let row = row_with(id, reach, reached)?;
        self.rows.push(row)?;
        Ok(())
    }

    /// A collector leaves, and its row is given up. It takes no memory.
    pub fn leave(&mut self, id: u32)
        ensures { self.new.rows ≡ rows_without self.old.rows id }
    {
        take_out(&mut self.rows, id);
    }

    /// Whether the collector of an id reaches the target of a number. False where either is not there. It takes no memory.
    pub fn reaches(&self, id: u32, number: usize) -> bool
        ensures { result ≡ is_reached self.now.rows id number }
    {
        reaches_in(self.rows.as_slice(), id, number)
    }

    /// The same for the collector at a place in order of joining, without a search.
    pub fn reaches_at(&self, place: usize, number: usize) -> bool
        ensures { result ≡ is_reached_at self.now.rows place number }
    {
        match self.rows.get(place) {
            Some(row) => row.reached.has(number),
            None => false,
        }
    }
}

/// Which targets of these numbers the collector at a place of a table reaches.
fn reached_at(
    alloc: Global,
    table: &ReachTable,
    place: usize,
    numbers: &[usize],
) -> Result<BitRow, AllocError>
    ensures { IfOk result (λ row. row.bits ≡ map (is_reached_at table.now.rows place) numbers.now) }
{
    let mut reached = BitRow::new(alloc);
    reached.reserve(numbers.len())?;
    push_reached(&mut reached, table, place, numbers);
    Ok(reached)
}

fn push_reached(reached: &mut BitRow, table: &ReachTable, place: usize, numbers: &[usize])
    requires { length numbers.now ≤ reached.old.spare }
    ensures { reached.new.bits ≡ reached.old.bits ++ map (is_reached_at table.now.rows place) numbers.now }
{
    for number in numbers {
        reached.push_reserved(table.reaches_at(place, *number));
    }
}

/// What the collector at a place reaches. Where there is none it is nothing.
fn reached_like(alloc: Global, rows: &[Row], place: usize) -> Result<BitRow, AllocError>
    ensures { IfOk result (λ reached. reached.bits ≡ reached_in (map shown rows.now) place) }
{
    match rows.get(place) {
        Some(row) => row.reached.copy(),
        None => Ok(BitRow::new(alloc)),
    }
}

/// Makes room in each row.
fn make_room_in(rows: &mut [Row], more: usize) -> Result<(), AllocError>
    ensures same { map shown rows.new ≡ map shown rows.old }
    ensures ok { OnOk result (more ≤ spare_in rows.new) }
    ensures full { OnErr result (spare_in rows.old < more) }
{
    for place in 0..rows.len() {
        make_room(&mut rows[place], more)?;
    }
    Ok(())
}

/// Adds each collector's answers for these targets, for which there is room.
fn answer_in<T: HasTarget>(rows: &mut [Row], targets: &[T])
    requires { length targets.now ≤ spare_in rows.old }
    ensures { map shown rows.new ≡ map (answered (map T.final_target targets.now)) (map shown rows.old) }
{
    for place in 0..rows.len() {
        answer(&mut rows[place], targets);
    }
}

/// Takes the row of a collector out.
fn take_out(rows: &mut Vec<Row>, id: u32)
    ensures { rows.new.items ≡ filter (λ (row : Row). not (row.id == id)) rows.old.items }
{
    rows.retain(|row| is_other(row, id));
}

fn is_other(row: &Row, id: u32) -> bool
    ensures { result ≡ not (row.now.id == id) }
{
    row.id != id
}

fn reaches_in(rows: &[Row], id: u32, number: usize) -> bool
    ensures { result ≡ is_reached (map shown rows.now) id number }
{
    for row in rows {
        if row.id == id {
            return row.reached.has(number);
        }
    }
    false
}
