//! Who may ask for what, by the token that is shown.
ghost use Rattle.std.specs.Prelude.{◌≡◌, option_copied, option_map};
ghost use Rattle.admission.specs.Authorizing.{shown_token as shown_token_of, bearer as bearer_of, same_token as same_token_of, is_for as is_for_of, has_key as has_key_of, holds as holds_of, is_admin as is_admin_of, is_allowed as is_allowed_of};

use crate::key::Key;
use crate::sites::same_letters;
use http_header::{AUTHORIZATION, HeaderMap};
use lists::{List, Text};
use sd_routes::{Access, Ask};

/// Whether who shows this token, or none, may ask for this.
pub(crate) fn is_allowed(
    admin: &Option<List<Key>>,
    collectors: &Option<List<Key>>,
    ask: Option<&Ask>,
    token: Option<&[u8]>,
) -> bool
    ensures { result ≡ is_allowed_of admin.now collectors.now (option_copied ask.entry) (option_map (λ t. t.now) token.entry) }
{
    let Some(ask) = ask else {
        return true;
    };
    match ask.access() {
        Access::Shown | Access::Noted => true,
        Access::Looked | Access::Taken | Access::Reported => {
            holds(collectors, ask.taker(), token) || is_admin(admin, token)
        }
        Access::Changed => holds(admin, None, token),
    }
}

/// Whether no token is needed, or the one that is shown serves for the collector of a name, or for whichever.
fn holds(keys: &Option<List<Key>>, collector: Option<&str>, token: Option<&[u8]>) -> bool
    ensures { result ≡ holds_of keys.now (option_map (λ s. s.now) collector.entry) (option_map (λ t. t.now) token.entry) }
{
    match (keys, token) {
        (None, _) => true,
        (Some(_), None) => false,
        (Some(keys), Some(token)) => has_key(keys.as_slice(), collector, token),
    }
}

/// Whether an admin's token is shown.
fn is_admin(keys: &Option<List<Key>>, token: Option<&[u8]>) -> bool
    ensures { result ≡ is_admin_of keys.now (option_map (λ t. t.now) token.entry) }
{
    match (keys, token) {
        (Some(keys), Some(token)) => has_key(keys.as_slice(), None, token),
        _ => false,
    }
}

/// Whether one of the keys has the token and is for the collector. All are looked at, whichever it is.
fn has_key(keys: &[Key], collector: Option<&str>, token: &[u8]) -> bool
    ensures { result ≡ has_key_of keys.now (option_map (λ s. s.now) collector.entry) token.now }
{
    let mut found = false;
    for key in keys {
        let is_it = same_token(token, key.token.as_str().as_bytes());
        found = found | (is_it & is_for(key, collector));
    }
    found
}

/// Whether a key is for all collectors, or for the one of this name.
fn is_for(key: &Key, collector: Option<&str>) -> bool
    ensures { result ≡ is_for_of key.now (option_map (λ s. s.now) collector.entry) }
{
    match (&key.collector, collector) {
        (Some(own), Some(name)) => own.as_str() == name,
        _ => true,
    }
}

/// Whether two tokens are the same. How long it takes tells no more than their lengths.
fn same_token(shown: &[u8], token: &[u8]) -> bool
    ensures { result ≡ same_token_of shown.now token.now }
{
    if shown.len() != token.len() {
        return false;
    }
    let mut same = true;
    for (i, byte) in shown.iter().enumerate() {
        same = same & (*byte == token[i]);
    }
    same
}

/// The token that a head shows (RFC 6750, section 2.1).
pub(crate) fn shown_token(fields: &HeaderMap) -> Option<&[u8]>
    ensures { option_map (λ t. t.now) result ≡ shown_token_of fields.now }
{
    bearer(fields.get(AUTHORIZATION)?.as_bytes())
}

/// What follows the scheme `Bearer`.
fn bearer(value: &[u8]) -> Option<&[u8]>
    ensures { option_map (λ t. t.now) result ≡ bearer_of value.now }
{
    if value.len() >= 7 && same_letters(&value[..7], b"bearer ") {
        return Some(&value[7..]);
    }
    None
}
