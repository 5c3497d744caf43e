//! JSON texts, and what the parts of every document are made of.
ghost use Rattle.std.specs.Prelude.{◌≡◌};
ghost use Rattle.serde_json.specs.Events.{items_len};
ghost use Rattle.serde_json.specs.View.{view, items_view};
ghost use Rattle.sd_documents.specs.Reading.{Gives, json_said, each_said, text_said, texts_said};

use crate::error::{Member, SdError};
use json_values::parse;
use lists::{List, Text};
use serde_json::Value;
use std::alloc::Global;

/// The value of a JSON text.
pub(crate) fn json_in(alloc: Global, bytes: &[u8]) -> Result<Value, SdError>
    ensures { Gives view result (json_said bytes.now) }
{
    parse(alloc, bytes)?.ok_or(SdError::NotJson)
}

/// A text.
pub(crate) fn text_in(
    alloc: Global,
    index: usize,
    member: Member,
    value: &Value,
) -> Result<Text, SdError>
    ensures { Gives (λ t. t) result (text_said index member (view value.now)) }
{
    let text = value.as_str().ok_or(SdError::Shape(index, member))?;
    let text = Text::from_str(alloc, text)?;
    Ok(text)
}

/// A list of texts.
pub(crate) fn texts_in(
    alloc: Global,
    index: usize,
    member: Member,
    value: &Value,
) -> Result<List<Text>, SdError>
    ensures { Gives (λ t. t) result (texts_said index member (view value.now)) }
{
    let values = value.as_array().ok_or(SdError::Shape(index, member))?;
    each_text(alloc, index, member, values.as_slice())
}

fn each_text(
    alloc: Global,
    index: usize,
    member: Member,
    values: &[Value],
) -> Result<List<Text>, SdError>
    ensures { Gives (λ t. t) result (each_said (text_said index member) (items_view values.now)) }
{
    let mut texts = List::new(alloc);
    for value in values {
        let text = text_in(alloc, index, member, value)?;
        texts.push(text)?;
    }
    Ok(texts)
}

/// How many values there are.
pub(crate) fn count_of(values: &[Value]) -> usize
    ensures { result ≡ items_len (items_view values.now) }
{
    values.len()
}
