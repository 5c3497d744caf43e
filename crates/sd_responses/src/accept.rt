//! Which form whoever asks wants of what is shown, by the header `accept`. Weights are not looked at: the first that is named counts.
use http_header::{ACCEPT, HeaderMap};

/// A form in which something is shown.
#[derive(Clone, Copy, PartialEq, Eq)]
enum Form {
    Json,
    Yaml,
    /// A page for people, in HTML.
    Document,
}

/// Whether a head asks for YAML: it names a media type of YAML, and not JSON's before it.
pub(crate) fn wants_yaml(fields: &HeaderMap) -> bool {
    first_form(fields, false) == Some(Form::Yaml)
}

/// Whether a head asks for a page for people: it names HTML's media type, and none of JSON or YAML before it.
pub fn wants_document(fields: &HeaderMap) -> bool {
    first_form(fields, true) == Some(Form::Document)
}

/// The first form that a head names, where pages for people are looked for or not.
fn first_form(fields: &HeaderMap, has_documents: bool) -> Option<Form> {
    for value in fields.get_all(ACCEPT) {
        if let Some(form) = first_named(value.to_str().unwrap_or(""), has_documents) {
            return Some(form);
        }
    }
    None
}

fn first_named(accept: &str, has_documents: bool) -> Option<Form> {
    for range in accept.split(',') {
        match form_of(range.split(';').next().unwrap_or("").trim()) {
            Some(Form::Document) if !has_documents => {}
            Some(form) => return Some(form),
            None => {}
        }
    }
    None
}

/// The form of a media type.
fn form_of(name: &str) -> Option<Form> {
    if is_yaml(name) {
        Some(Form::Yaml)
    } else if name.eq_ignore_ascii_case("application/json") {
        Some(Form::Json)
    } else if name.eq_ignore_ascii_case("text/html") {
        Some(Form::Document)
    } else {
        None
    }
}

/// Whether a media type is that of YAML (RFC 9512, section 2.1), or one of its older names.
fn is_yaml(name: &str) -> bool {
    name.eq_ignore_ascii_case("application/yaml")
        || name.eq_ignore_ascii_case("application/x-yaml")
        || name.eq_ignore_ascii_case("text/yaml")
}
