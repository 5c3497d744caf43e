//! Values that are found, or others in their place.
ghost use Rattle.std.specs.Prelude.{◌≡◌, IfOk, option_map};
ghost use Rattle.serde_json.specs.View.{view};
ghost use Rattle.scrape_pages.specs.Found.{text_or as text_or_data};

use serde_json::Value;
use std::alloc::{AllocError, Global};

/// A copy of what was found, or else this text.
pub(crate) fn text_or(alloc: Global, found: Option<&Value>, text: &str) -> Result<Value, AllocError>
    ensures { IfOk result (λ v. view v ≡ text_or_data text.now (option_map (λ v. view v.now) found.entry)) }
{
    match found {
        Some(value) => value.clone(),
        None => Value::try_from_str(alloc, text),
    }
}
