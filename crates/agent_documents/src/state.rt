//! The file in which is written down what was told.
ghost use Rattle.std.specs.Prelude.{◌≡◌, [], IfOk, option_map};
ghost use Rattle.serde_json.specs.View.{view, items_view};
ghost use Rattle.serde_json.specs.Written.{compact_text};
ghost use Rattle.agent_documents.specs.Reading.{Gives, json_said};
ghost use Rattle.agent_documents.specs.States.{large_member, mark_added, mark_data, marks_data, marks_from, marks_in, memory_in, memory_said, small_member, state_data, targets_from, targets_in, text_member};

use crate::error::{DocumentError, Part};
use agent_core::{Memory, Series};
use indexmap::{IndexMap, IndexSet};
use json_values::{array_of, member, number, parse, text_of};
use lists::{List, Text};
use serde_json::{Value, json};
use std::alloc::{AllocError, Global};

/// The document of what was told.
pub fn write_memory(alloc: Global, memory: &Memory) -> Result<Text, AllocError>
    ensures { IfOk result (λ t. t ≡ compact_text (state_data memory.now)) }
{
    let value = state_value(alloc, memory)?;
    text_of(alloc, &value)
}

fn state_value(alloc: Global, memory: &Memory) -> Result<Value, AllocError>
    ensures { IfOk result (λ v. view v ≡ state_data memory.now) }
{
    let marks = Value::Array(mark_values(alloc, memory.marks())?);
    let targets = array_of(alloc, memory.targets())?;
    json!(in alloc; {
        "epoch": memory.epoch(),
        "floor": memory.floor(),
        "marks": marks,
        "round": memory.round(),
        "targets": targets
    })
}

fn mark_values(alloc: Global, marks: &IndexMap<Series, u64>) -> Result<Vec<Value>, AllocError>
    ensures { IfOk result (λ vs. items_view vs.items ≡ marks_data marks.now.entries) }
{
    let mut values = Vec::with_capacity(alloc, marks.len())?;
    for (series, time) in marks.iter() {
        values.push(mark_value(alloc, series, *time)?)?;
    }
    Ok(values)
}

/// A series and its mark.
fn mark_value(alloc: Global, series: &Series, time: u64) -> Result<Value, AllocError>
    ensures { IfOk result (λ v. view v ≡ mark_data series.now time) }
{
    let labels = series.labels.as_str();
    json!(in alloc; {"labels": labels, "time": time})
}

/// Reads the document of what was told.
pub fn read_memory(alloc: Global, bytes: &[u8]) -> Result<Memory, DocumentError>
    ensures { Gives (λ m. m) result (memory_said bytes.now) }
{
    let value = json_in(alloc, bytes)?;
    memory_in(alloc, &value)
}

fn json_in(alloc: Global, bytes: &[u8]) -> Result<Value, DocumentError>
    ensures { Gives view result (json_said bytes.now) }
{
    parse(alloc, bytes)?.ok_or(DocumentError::NotJson)
}

fn memory_in(alloc: Global, value: &Value) -> Result<Memory, DocumentError>
    ensures { Gives (λ m. m) result (memory_in (view value.now)) }
{
    let epoch = large_member(value, "epoch").ok_or(DocumentError::Shape(Part::State))?;
    let floor = large_member(value, "floor").ok_or(DocumentError::Shape(Part::State))?;
    let round = small_member(value, "round").ok_or(DocumentError::Shape(Part::State))?;
    let targets = targets_in(alloc, value)?;
    let marks = marks_in(alloc, value)?;
    Ok(Memory::restored(alloc, epoch, round, targets, marks, floor))
}

fn large_member(value: &Value, name: &str) -> Option<u64>
    ensures { result ≡ large_member name.now (view value.now) }
{
    value.get(name)?.as_u64()
}

fn small_member(value: &Value, name: &str) -> Option<u32>
    ensures { result ≡ small_member name.now (view value.now) }
{
    number(value.get(name)?)
}

fn targets_in(alloc: Global, value: &Value) -> Result<IndexSet<u32>, DocumentError>
    ensures { Gives (λ s. s.keys) result (targets_in (view value.now)) }
{
    let targets: Option<List<u32>> = member(alloc, value, "targets")?;
    let targets = targets.ok_or(DocumentError::Shape(Part::State))?;
    let set = set_of(alloc, targets.as_slice())?;
    Ok(set)
}

fn set_of(alloc: Global, targets: &[u32]) -> Result<IndexSet<u32>, AllocError>
    ensures { IfOk result (λ s. s.keys ≡ targets_from [] targets.now) }
{
    let mut all = IndexSet::new(alloc);
    for target in targets {
        all.insert(*target)?;
    }
    Ok(all)
}

fn marks_in(alloc: Global, value: &Value) -> Result<IndexMap<Series, u64>, DocumentError>
    ensures { Gives (λ m. m.entries) result (marks_in (view value.now)) }
{
    let marks = value.get("marks").ok_or(DocumentError::Shape(Part::State))?;
    let marks = marks.as_array().ok_or(DocumentError::Shape(Part::State))?;
    each_mark(alloc, marks.as_slice())
}

fn each_mark(alloc: Global, values: &[Value]) -> Result<IndexMap<Series, u64>, DocumentError>
    ensures { Gives (λ m. m.entries) result (marks_from [] (items_view values.now)) }
{
    let mut marks = IndexMap::new(alloc);
    for value in values {
        add_mark(alloc, &mut marks, value)?;
    }
    Ok(marks)
}

fn add_mark(
    alloc: Global,
    marks: &mut IndexMap<Series, u64>,
    value: &Value,
) -> Result<(), DocumentError>
    ensures { Gives (λ _. marks.new.entries) result (mark_added marks.old.entries (view value.now)) }
{
    let labels = text_member(value, "labels").ok_or(DocumentError::Shape(Part::State))?;
    let time = large_member(value, "time").ok_or(DocumentError::Shape(Part::State))?;
    let labels = Text::from_str(alloc, labels)?;
    marks.insert(Series { labels }, time)?;
    Ok(())
}

fn text_member<'a>(value: &'a Value, name: &str) -> Option<&'a str>
    ensures { option_map (λ t. t.now) result ≡ text_member name.now (view value.now) }
{
    value.get(name)?.as_str()
}
