//! What JSON values spell: whole numbers, pairs of them, and lists of what can be spelled.
ghost use Rattle.std.specs.Prelude.{◌≡◌, Option, Some, IfOk, OnOk};
ghost use Rattle.serde_json.specs.Data.{Data, string, put as with_member};
ghost use Rattle.serde_json.specs.Find.{as_str};
ghost use Rattle.serde_json.specs.View.{view, items_view, members_view};
ghost use Rattle.json_values.specs.Spelling.{number_in, pair_in, list_in, all_in, member_in, number_data, pair_data, items_data, list_data};

use lists::{List, Text};
use serde_json::{Map, Value, put};
use std::alloc::{AllocError, Global};

/// What is read from a JSON value.
pub trait FromJson: Sized {
    ghost spelled: { Data → Option Self };

    /// What the value spells, if it is such a thing.
    fn read(alloc: Global, value: &Value) -> Result<Option<Self>, AllocError>
        ensures { IfOk result (λ o. o ≡ spelled (view value.now)) };
}

/// What a JSON value can spell: it is written so that it reads back.
pub trait Spelled: FromJson {
    ghost spelling: { Self → Data };

    /// The value that spells this.
    fn write(&self, alloc: Global) -> Result<Value, AllocError>
        ensures form { IfOk result (λ v. view v ≡ spelling self.now) }
        ensures reads_back { IfOk result (λ v. Self.spelled (view v) ≡ Some self.now) };
}

impl FromJson for u32 {
    ghost spelled = { number_in };

    fn read(_alloc: Global, value: &Value) -> Result<Option<u32>, AllocError> {
        Ok(number(value))
    }
}

impl Spelled for u32 {
    ghost spelling = { number_data };

    fn write(&self, _alloc: Global) -> Result<Value, AllocError> {
        let number = *self;
        Ok(Value::from(number))
    }
}

impl FromJson for (u32, u32) {
    ghost spelled = { pair_in };

    fn read(_alloc: Global, value: &Value) -> Result<Option<(u32, u32)>, AllocError> {
        Ok(pair(value))
    }
}

impl Spelled for (u32, u32) {
    ghost spelling = { pair_data };

    fn write(&self, alloc: Global) -> Result<Value, AllocError> {
        let (first, second) = *self;
        let mut both = Vec::with_capacity(alloc, 2)?;
        both.push(Value::from(first))?;
        both.push(Value::from(second))?;
        Ok(Value::Array(both))
    }
}

impl FromJson for Text {
    ghost spelled = { as_str };

    fn read(alloc: Global, value: &Value) -> Result<Option<Text>, AllocError> {
        match value.as_str() {
            Some(text) => Ok(Some(Text::from_str(alloc, text)?)),
            None => Ok(None),
        }
    }
}

impl Spelled for Text {
    ghost spelling = { string };

    fn write(&self, alloc: Global) -> Result<Value, AllocError> {
        Ok(Value::String(String::from_str(alloc, self.as_str())?))
    }
}

impl<T: FromJson + Drop> FromJson for List<T> {
    ghost spelled = { list_in T.spelled };

    fn read(alloc: Global, value: &Value) -> Result<Option<List<T>>, AllocError> {
        list_of(alloc, value)
    }
}

impl<T: Spelled + Drop> Spelled for List<T> {
    ghost spelling = { list_data T.spelling };

    fn write(&self, alloc: Global) -> Result<Value, AllocError> {
        array_of(alloc, self.as_slice())
    }
}

/// What a member of an object spells.
pub fn member<T: FromJson>(
    alloc: Global,
    value: &Value,
    name: &str,
) -> Result<Option<T>, AllocError>
    ensures { IfOk result (λ o. o ≡ member_in T.spelled name.now (view value.now)) }
{
    match value.get(name) {
        Some(found) => T::read(alloc, found),
        None => Ok(None),
    }
}

/// A whole number of at most 32 bits: no fraction, no exponent, no minus sign.
pub fn number(value: &Value) -> Option<u32>
    ensures { result ≡ number_in (view value.now) }
{
    match value.as_u64() {
        Some(n) if n < 1 << 32 => Some(n as u32),
        _ => None,
    }
}

fn pair(value: &Value) -> Option<(u32, u32)>
    ensures { result ≡ pair_in (view value.now) }
{
    match value.as_array()?.as_slice() {
        [first, second] => Some((number(first)?, number(second)?)),
        _ => None,
    }
}

/// What all values of a list spell, if each is such a thing.
pub fn list_of<T: FromJson + Drop>(
    alloc: Global,
    value: &Value,
) -> Result<Option<List<T>>, AllocError>
    ensures { IfOk result (λ o. o ≡ list_in T.spelled (view value.now)) }
{
    match value.as_array() {
        Some(values) => all(alloc, values.as_slice()),
        None => Ok(None),
    }
}

fn all<T: FromJson + Drop>(alloc: Global, values: &[Value]) -> Result<Option<List<T>>, AllocError>
    ensures { IfOk result (λ o. o ≡ all_in T.spelled (items_view values.now)) }
{
    let mut items = Vec::with_capacity(alloc, values.len())?;
    for value in values {
        match T::read(alloc, value)? {
            Some(item) => items.push(item)?,
            None => return Ok(None),
        }
    }
    Ok(Some(List::from_vec(items)))
}

/// Puts the value that spells this into an object, under a key; what stood there goes.
pub fn put_written<A: Spelled>(
    members: &mut Map<String, Value>,
    alloc: Global,
    key: &str,
    what: &A,
) -> Result<(), AllocError>
    ensures form { OnOk result (members_view members.new.entries ≡ with_member key.now (A.spelling what.now) (members_view members.old.entries)) }
    ensures reads_back { OnOk result (A.spelled (A.spelling what.now) ≡ Some what.now) }
{
    let value = what.write(alloc)?;
    put(members, alloc, key, value)
}

/// The array that spells all of these.
pub fn array_of<T: Spelled>(alloc: Global, items: &[T]) -> Result<Value, AllocError>
    ensures form { IfOk result (λ v. view v ≡ list_data T.spelling items.now) }
    ensures reads_back { IfOk result (λ v. list_in T.spelled (view v) ≡ Some items.now) }
{
    Ok(Value::Array(values_of(alloc, items)?))
}

fn values_of<T: Spelled>(alloc: Global, items: &[T]) -> Result<Vec<Value>, AllocError>
    ensures form { IfOk result (λ vs. items_view vs.items ≡ items_data T.spelling items.now) }
    ensures reads_back { IfOk result (λ vs. all_in T.spelled (items_view vs.items) ≡ Some items.now) }
{
    let mut values = Vec::with_capacity(alloc, items.len())?;
    for item in items {
        values.push(item.write(alloc)?)?;
    }
    Ok(values)
}
