//! JSON texts of values.
ghost use Rattle.std.specs.Prelude.{◌≡◌, ◌≤◌, [], IsUtf8, Some, false, IfOk};
ghost use Rattle.std.specs.List.{list_any};
ghost use Rattle.json.specs.Lex.{tokens};
ghost use Rattle.json.specs.Print.{print};
ghost use Rattle.serde_json.specs.Data.{depth};
ghost use Rattle.serde_json.specs.Read.{max_depth};
ghost use Rattle.serde_json.specs.View.{view};
ghost use Rattle.serde_json.specs.Written.{has_float, compact_text};
ghost use Rattle.json_values.specs.Texts.{json_of, is_line_feed};

use json::Writer;
use lists::Text;
use serde_json::Value;
use std::alloc::{AllocError, Global};

/// The compact text of a value, which has no line feed. It is read as the value again unless more than 127 containers nest.
pub fn text_of(alloc: Global, value: &Value) -> Result<Text, AllocError>
    ensures form { IfOk result (λ t. has_float (view value.now) ≡ false → t ≡ compact_text (view value.now)) }
    ensures one_line { IfOk result (λ t. has_float (view value.now) ≡ false → list_any is_line_feed t ≡ false) }
    ensures reads_back { IfOk result (λ t. depth (view value.now) ≤ max_depth → json_of t ≡ Some (view value.now)) }
{
    Ok(Text::from_string(value.to_string(alloc)?))
}

/// The text of what was written, which has the same tokens.
pub fn written_text(out: Writer) -> Result<Text, AllocError>
    requires { out.before ≡ [] }
    ensures text { IfOk result (λ t. t ≡ print out.tokens) }
    ensures tokens { tokens (print out.tokens) ≡ out.tokens }
    ensures utf8 { IsUtf8 (print out.tokens) }
{
    match String::from_utf8(out.into_inner()) {
        Ok(text) => Ok(Text::from_string(text)),
        Err(error) => {
            drop(error);
            Err(AllocError)
        }
    }
}
