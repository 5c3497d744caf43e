//! A path, or a pattern with one star in its last part.
ghost use Rattle.std.specs.Prelude.{◌≡◌, ◌==◌, IfSome, option_map};
ghost use Rattle.std.specs.List.{before_first, list_any};
ghost use Rattle.file_configs.specs.Patterns.{behind, is_between as is_between_texts, is_yaml as is_yaml_text, is_json as is_json_text, is_control as is_control_byte, is_sign as is_sign_byte, is_late as is_late_byte, has_stray_star as has_stray_star_text, fault_said};

use std::fmt;

/// Why a text is no path and no pattern of files.
#[derive(Clone, Copy, PartialEq, Eq)]
pub enum PatternFault {
    /// YAML files are not read.
    Yaml,
    /// It does not end with `.json`.
    NoJson,
    /// There is more than one star, or one before the last part.
    Star,
    /// Another sign of a pattern, which is not followed.
    Sign,
    /// A control character.
    Control,
}

impl fmt::Display for PatternFault {
    fn fmt<W: fmt::Write>(&self, f: &mut fmt::Formatter<W>) -> fmt::Result {
        f.write_str(match self {
            PatternFault::Yaml =>
                "YAML files are not read: write the groups as JSON, in a file whose name ends with .json",
            PatternFault::NoJson => "it does not end with .json",
            PatternFault::Star => "one * may stand in the last part of a path, and no other",
            PatternFault::Sign => "no sign of a pattern but * is followed",
            PatternFault::Control => "it has a control character",
        })
    }
}

/// Why a text is no path and no pattern of files, if it is none. It takes no memory.
pub fn pattern_fault(text: &str) -> Option<PatternFault>
    ensures { result ≡ fault_said text.now }
{
    if has_control(text.as_bytes()) {
        return Some(PatternFault::Control);
    }
    if is_yaml(text.as_bytes()) {
        return Some(PatternFault::Yaml);
    }
    if !is_json(text.as_bytes()) {
        return Some(PatternFault::NoJson);
    }
    if has_sign(text.as_bytes()) {
        return Some(PatternFault::Sign);
    }
    if has_stray_star(text) {
        return Some(PatternFault::Star);
    }
    None
}

fn is_yaml(text: &[u8]) -> bool
    ensures { result ≡ is_yaml_text text.now }
{
    text.ends_with(b".yml")
        || text.ends_with(b".yaml")
        || text.ends_with(b".YML")
        || text.ends_with(b".YAML")
}

fn is_json(text: &[u8]) -> bool
    ensures { result ≡ is_json_text text.now }
{
    text.ends_with(b".json") || text.ends_with(b".JSON")
}

fn has_control(text: &[u8]) -> bool
    ensures { result ≡ list_any is_control_byte text.now }
{
    for byte in text {
        if *byte < 32 || *byte == 127 {
            return true;
        }
    }
    false
}

fn has_sign(text: &[u8]) -> bool
    ensures { result ≡ list_any is_sign_byte text.now }
{
    for byte in text {
        if *byte == b'?' || *byte == b'[' || *byte == b'\\' {
            return true;
        }
    }
    false
}

/// Whether a star or a slash stands behind the first star.
fn has_stray_star(text: &str) -> bool
    ensures { result ≡ has_stray_star_text text.now }
{
    match star_in(text) {
        Some((_head, tail)) => has_late(tail.as_bytes()),
        None => false,
    }
}

fn has_late(text: &[u8]) -> bool
    ensures { result ≡ list_any is_late_byte text.now }
{
    for byte in text {
        if *byte == b'*' || *byte == b'/' {
            return true;
        }
    }
    false
}

/// What stands before the first star and behind it, where there is one.
pub fn star_in(text: &str) -> Option<(&str, &str)>
    ensures head { IfSome result (λ parts. parts.0.now ≡ before_first (λ b. b == 42) text.now) }
    ensures tail { option_map (λ parts. parts.1.now) result ≡ behind 42 text.now }
{
    match text.split_once('*') {
        Some((head, tail)) => Some((head, tail)),
        None => None,
    }
}

/// Whether a path begins with the head of a pattern and ends with its tail, and the two do not overlap.
pub fn is_between(head: &str, tail: &str, path: &str) -> bool
    ensures { result ≡ is_between_texts head.now tail.now path.now }
{
    match path.len().checked_sub(head.len()) {
        Some(left) => tail.len() <= left
            && path.as_bytes().starts_with(head.as_bytes())
            && path.as_bytes().ends_with(tail.as_bytes()),
        None => false,
    }
}
