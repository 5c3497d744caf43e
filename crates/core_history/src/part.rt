//! Parts of a history as JSON values.
ghost use Rattle.std.specs.Prelude.{◌≡◌, Option, Some, IfOk};
ghost use Rattle.serde_json.specs.Data.{Data};
ghost use Rattle.serde_json.specs.View.{view, items_view};
ghost use Rattle.json_values.specs.Spelling.{all_in, items_data, list_data, list_in, member_in, number_data};
ghost use Rattle.core_history.specs.Parts.{count_in};

use lists::List;
use serde_json::Value;
use std::alloc::{AllocError, Global};

/// A part of a history.
pub(crate) trait Part: Sized {
    ghost part_in: { Data → Option Self };

    /// The part that the value says, if it says one.
    fn read(alloc: Global, value: &Value) -> Result<Option<Self>, AllocError>
        ensures { IfOk result (λ o. o ≡ part_in (view value.now)) };

    ghost part_data: { Self → Data };

    /// The value that says the part.
    fn write(&self, alloc: Global) -> Result<Value, AllocError>
        ensures form { IfOk result (λ v. view v ≡ part_data self.now) }
        ensures reads_back { IfOk result (λ v. part_in (view v) ≡ Some self.now) };
}

impl Part for usize {
    ghost part_in = { count_in };

    fn read(_alloc: Global, value: &Value) -> Result<Option<usize>, AllocError> {
        match value.as_u64() {
            Some(count) => Ok(Some(count as usize)),
            None => Ok(None),
        }
    }

    ghost part_data = { number_data };

    fn write(&self, _alloc: Global) -> Result<Value, AllocError> {
        let count = *self;
        Ok(Value::from(count))
    }
}

impl<T: Part + Drop> Part for List<T> {
    ghost part_in = { list_in T.part_in };

    fn read(alloc: Global, value: &Value) -> Result<Option<List<T>>, AllocError> {
        match value.as_array() {
            Some(values) => each(alloc, values.as_slice()),
            None => Ok(None),
        }
    }

    ghost part_data = { list_data T.part_data };

    fn write(&self, alloc: Global) -> Result<Value, AllocError> {
        list_value(alloc, self.as_slice())
    }
}

/// The part that the member of a name says.
pub(crate) fn part_member<T: Part>(
    alloc: Global,
    value: &Value,
    name: &str,
) -> Result<Option<T>, AllocError>
    ensures { IfOk result (λ o. o ≡ member_in T.part_in name.now (view value.now)) }
{
    match value.get(name) {
        Some(found) => T::read(alloc, found),
        None => Ok(None),
    }
}

fn each<T: Part + Drop>(alloc: Global, values: &[Value]) -> Result<Option<List<T>>, AllocError>
    ensures { IfOk result (λ o. o ≡ all_in T.part_in (items_view values.now)) }
{
    let mut parts = Vec::with_capacity(alloc, values.len())?;
    for value in values {
        match T::read(alloc, value)? {
            Some(part) => parts.push(part)?,
            None => return Ok(None),
        }
    }
    Ok(Some(List::from_vec(parts)))
}

/// The array of all these parts.
pub(crate) fn list_value<T: Part>(alloc: Global, parts: &[T]) -> Result<Value, AllocError>
    ensures form { IfOk result (λ v. view v ≡ list_data T.part_data parts.now) }
    ensures reads_back { IfOk result (λ v. list_in T.part_in (view v) ≡ Some parts.now) }
{
    Ok(Value::Array(values_of(alloc, parts)?))
}

fn values_of<T: Part>(alloc: Global, parts: &[T]) -> Result<Vec<Value>, AllocError>
    ensures form { IfOk result (λ vs. items_view vs.items ≡ items_data T.part_data parts.now) }
    ensures reads_back { IfOk result (λ vs. all_in T.part_in (items_view vs.items) ≡ Some parts.now) }
{
    let mut values = Vec::with_capacity(alloc, parts.len())?;
    for part in parts {
        values.push(part.write(alloc)?)?;
    }
    Ok(values)
}
