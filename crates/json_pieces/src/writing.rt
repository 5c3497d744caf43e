//! Writing a value piece by piece.
ghost use Rattle.std.specs.Prelude.{◌≡◌, ◌≤◌, ◌++◌, ℕ, List, IsTrue, IsUtf8, OnOk, IfOk};
ghost use Rattle.json.specs.Print.{token_text};
ghost use Rattle.json.specs.Token.{key as name_token};
ghost use Rattle.serde_json.specs.Data.{Data, array, object, depth, items_depth};
ghost use Rattle.serde_json.specs.View.{view, items_view, members_view};
ghost use Rattle.serde_json.specs.Written.{comma_if};
ghost use Rattle.json_pieces.specs.Texts.{IsTextOf, WritesValue};

use crate::pieces::Pieces;
use json::Writer;
use serde_json::{Map, Value};
use std::alloc::{AllocError, Global};
use std::io;

/// Writes the compact text of a value. No piece has more than one name, or one plain value or one array of such values. After an `Err` a beginning
/// of the text may have been taken.
pub fn write_value<P: Pieces>(alloc: Global, value: &Value, out: &mut P) -> io::Result<()>
    ensures { OnOk result ((text : List ℕ) × P.grows out.old out.new text × IsTextOf (view value.now) text) }
{
    write(alloc, value, out)
}

#[cycle(write)]
fn write<P: Pieces>(alloc: Global, value: &Value, out: &mut P) -> io::Result<()>
    ensures { OnOk result ((text : List ℕ) × P.grows out.old out.new text × WritesValue (view value.now) text) }
{
    match value {
        Value::Array(items) if are_plain(items.as_slice()) => write_whole(alloc, value, out),
        Value::Array(items) => write_items(alloc, items, out),
        Value::Object(members) => write_members(alloc, members, out),
        Value::Null | Value::Bool(_) | Value::Number(_) | Value::String(_) => {
            write_whole(alloc, value, out)
        }
    }
}

/// Writes an array.
#[cycle(write)]
fn write_items<P: Pieces>(alloc: Global, items: &Vec<Value>, out: &mut P) -> io::Result<()>
    ensures { OnOk result ((text : List ℕ) × P.grows out.old out.new text × WritesValue (array (items_view items.now.items)) text) }
{
    out.write_piece(b"[")?;
    let mut is_later = false;
    for item in items {
        out.write_piece(comma(is_later))?;
        write(alloc, item, out)?;
        is_later = true;
    }
    out.write_piece(b"]")
}

/// Writes an object.
#[cycle(write)]
fn write_members<P: Pieces>(
    alloc: Global,
    members: &Map<String, Value>,
    out: &mut P,
) -> io::Result<()>
    ensures { OnOk result ((text : List ℕ) × P.grows out.old out.new text × WritesValue (object (members_view members.now.entries)) text) }
{
    out.write_piece(b"{")?;
    let mut is_later = false;
    for (name, member) in members.iter() {
        write_name(alloc, is_later, name.as_str(), out)?;
        write(alloc, member, out)?;
        is_later = true;
    }
    out.write_piece(b"}")
}

/// A comma, where something stands before.
fn comma(is_later: bool) -> &'static [u8]
    ensures { result.now ≡ comma_if is_later }
{
    if is_later { b"," } else { b"" }
}

/// Writes the name of a member with its colon.
fn write_name<P: Pieces>(alloc: Global, is_later: bool, name: &str, out: &mut P) -> io::Result<()>
    ensures { OnOk result (P.grows out.old out.new (comma_if is_later ++ token_text (name_token name.now)) × IsUtf8 (token_text (name_token name.now))) }
{
    let text = name_text(alloc, is_later, name)?;
    out.write_piece(text.as_slice())
}

fn name_text(alloc: Global, is_later: bool, name: &str) -> Result<Vec<u8>, AllocError>
    ensures text { IfOk result (λ v. v.items ≡ comma_if is_later ++ token_text (name_token name.now)) }
    ensures utf8 { OnOk result (IsUtf8 (token_text (name_token name.now))) }
{
    let mut text = Vec::new(alloc);
    text.extend_from_slice(comma(is_later))?;
    let mut writer = Writer::new(text);
    writer.key(name)?;
    Ok(writer.into_inner())
}

/// Whether none of the values is an array or an object.
fn are_plain(values: &[Value]) -> bool
    ensures { IsTrue result → items_depth (items_view values.now) ≡ 0 }
{
    for value in values {
        if !is_plain(value) {
            return false;
        }
    }
    true
}

fn is_plain(value: &Value) -> bool
    ensures { IsTrue result → depth (view value.now) ≡ 0 }
{
    match value {
        Value::Array(_) | Value::Object(_) => false,
        Value::Null | Value::Bool(_) | Value::Number(_) | Value::String(_) => true,
    }
}

/// Writes a plain value, or an array of such values, in one piece.
fn write_whole<P: Pieces>(alloc: Global, value: &Value, out: &mut P) -> io::Result<()>
    requires { depth (view value.now) ≤ 1 }
    ensures { OnOk result ((text : List ℕ) × P.grows out.old out.new text × WritesValue (view value.now) text) }
{
    let text = value.to_vec(alloc)?;
    out.write_piece(text.as_slice())
}
