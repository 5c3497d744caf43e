//! What is wrong with a collector of the settings, or with a pattern of those that join by asking.
use json_values::number;
use serde_json::Value;
use std::alloc::{AllocError, Global};
use std::fmt::{self, Display, Formatter};

/// A list of the settings whose entries say what collectors join with.
#[derive(Clone, Copy, Debug, PartialEq, Eq)]
pub(crate) enum Joining {
    Collectors,
    Patterns,
}

/// An entry of such a list.
#[derive(Clone, Copy, Debug, PartialEq, Eq)]
pub(crate) struct Entry {
    list: Joining,
    index: usize,
}

impl Joining {
    fn name(self) -> &'static str {
        match self {
            Joining::Collectors => "collectors",
            Joining::Patterns => "join_by_asking",
        }
    }

    pub(crate) fn entry(self, index: usize) -> Entry {
        Entry { list: self, index }
    }

    /// The entries of the list in a document.
    pub(crate) fn entries_in(self, document: &Value) -> &[Value] {
        let found = document
            .get("allocator")
            .and_then(|allocator| allocator.get(self.name()))
            .and_then(Value::as_array);
        match found {
            Some(entries) => entries.as_slice(),
            None => &[],
        }
    }
}

impl Entry {
    /// A member of the entry.
    pub(crate) fn member<'a>(self, document: &'a Value, name: &str) -> Option<&'a Value> {
        self.list.entries_in(document).get(self.index)?.get(name)
    }
}

impl Display for Entry {
    /// The way to the entry from the document.
    fn fmt<W: fmt::Write>(&self, f: &mut Formatter<W>) -> fmt::Result {
        let (list, index) = (self.list.name(), self.index);
        write!(f, "allocator.{list}[{index}]")
    }
}

pub(crate) fn name_fault(
    alloc: Global,
    document: &Value,
    line: &str,
    index: usize,
) -> Result<String, AllocError> {
    let found = Joining::Collectors.entry(index).member(document, "name");
    text_fault(alloc, found, line, "1 to 128 bytes")
}

pub(crate) fn pattern_fault(
    alloc: Global,
    document: &Value,
    line: &str,
    index: usize,
) -> Result<String, AllocError> {
    let found = Joining::Patterns.entry(index).member(document, "pattern");
    text_fault(alloc, found, line, "1 to 200 characters")
}

/// What is wrong with a text that has another length, or is none.
fn text_fault(
    alloc: Global,
    found: Option<&Value>,
    line: &str,
    length: &str,
) -> Result<String, AllocError> {
    match found {
        None => format!(in alloc; "{line}: it is missing"),
        Some(Value::String(_)) => format!(in alloc; "{line}: it has {length}"),
        Some(_) => format!(in alloc; "{line}: no text"),
    }
}

/// The limit that is no number, where there is one.
pub(crate) fn limits_fault(
    alloc: Global,
    document: &Value,
    line: &str,
    entry: Entry,
) -> Result<String, AllocError> {
    let found = entry.member(document, "limits").and_then(Value::as_object);
    let Some(limits) = found else {
        return String::from_str(alloc, line);
    };
    for (job, limit) in limits.iter() {
        if number(limit).is_none() {
            let job = job.as_str();
            return format!(in alloc; "{entry}.limits.{job}: no whole number of 32 bits");
        }
    }
    String::from_str(alloc, line)
}
