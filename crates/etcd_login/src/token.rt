//! What is answered.
ghost use Rattle.std.specs.Prelude.{◌≡◌, IfOk};
ghost use Rattle.serde_json.specs.Find.{as_str};
ghost use Rattle.serde_json.specs.View.{view};
ghost use Rattle.etcd_login.specs.Logins.{is_token_over as is_over_by, token_in, token_said};

use json_values::parse;
use lists::Text;
use serde_json::Value;
use std::alloc::{AllocError, Global};

/// The token that an answer to a login gives. None where it gives none, or nothing is known.
pub fn read_token(alloc: Global, status: u16, body: &[u8]) -> Result<Option<Text>, AllocError>
    ensures { IfOk result (λ o. o ≡ token_said status body.now) }
{
    if status != 200 {
        return Ok(None);
    }
    match parse(alloc, body)? {
        Some(value) => token_in(alloc, &value),
        None => Ok(None),
    }
}

fn token_in(alloc: Global, value: &Value) -> Result<Option<Text>, AllocError>
    ensures { IfOk result (λ o. o ≡ token_in (view value.now)) }
{
    match value.get("token") {
        Some(token) => text_in(alloc, token),
        None => Ok(None),
    }
}

fn text_in(alloc: Global, value: &Value) -> Result<Option<Text>, AllocError>
    ensures { IfOk result (λ o. o ≡ as_str (view value.now)) }
{
    match value.as_str() {
        Some(text) => Ok(Some(Text::from_str(alloc, text)?)),
        None => Ok(None),
    }
}

/// Whether an answer of this status says that the token that was shown is none, so that another is to be asked for.
pub fn is_token_over(status: u16) -> bool
    ensures { result ≡ is_over_by status }
{
    status == 401
}
