//! A set's names and texts in byte order: where a name stands, and what is put in and taken out.
ghost use Rattle.std.specs.Prelude.{◌≡◌, IfOk, IfErr, OnOk, OnErr, IsOk, IsTrue, []};
ghost use Rattle.std.specs.FinMap.{is_sorted};
ghost use Rattle.label_sets.specs.Name.{is_label_name};
ghost use Rattle.label_sets.specs.Labels.{byte_cmp, label_text, with_label, without};
ghost use Rattle.label_sets.specs.inner.Places.{IsHere, IsGap};

use crate::name::LabelName;
use lists::Text;
use std::alloc::AllocError;
use std::cmp::Ordering;

/// Where the name stands, or where it would be put.
fn index_of(entries: &[(LabelName, Text)], name: &str) -> Result<usize, usize>
    requires { IsTrue (is_sorted byte_cmp entries.now) }
    ensures here { IfOk result (IsHere entries.now name.now) }
    ensures gap { IfErr result (IsGap entries.now name.now) }
{
    entries.binary_search_by(|entry| order_of(entry, name))
}

/// The order of an entry's name and a name.
fn order_of(entry: &(LabelName, Text), name: &str) -> Ordering
    ensures { result ≡ byte_cmp entry.now.0 name.now }
{
    entry.0.as_str().cmp(name)
}

/// The text of a name.
pub(crate) fn text_of<'a>(entries: &'a [(LabelName, Text)], name: &str) -> &'a str
    requires { IsTrue (is_sorted byte_cmp entries.now) }
    ensures { result.now ≡ label_text entries.now name.now }
{
    match index_of(entries, name) {
        Ok(i) => entries[i].1.as_str(),
        Err(_) => "",
    }
}

/// Gives a label name a text, or takes it out where the text is empty.
pub(crate) fn put(
    entries: &mut Vec<(LabelName, Text)>,
    name: &str,
    text: &str,
) -> Result<(), AllocError>
    requires ordered { IsTrue (is_sorted byte_cmp entries.old.items) }
    requires named { IsTrue (is_label_name name.now) }
    ensures ok { OnOk result (entries.new.items ≡ with_label entries.old.items name.now text.now) }
    ensures err { OnErr result (entries.new.items ≡ entries.old.items) }
    ensures removal { text.now ≡ [] → IsOk result }
{
    if text.is_empty() {
        take_out(entries, name);
        return Ok(());
    }
    let text = Text::from_str(*entries.allocator(), text)?;
    match index_of(entries.as_slice(), name) {
        Ok(i) => {
            let entry = &mut entries[i];
            entry.1 = text;
            Ok(())
        }
        Err(i) => {
            let name = LabelName::of_name(*entries.allocator(), name)?;
            entries.insert(i, (name, text))?;
            Ok(())
        }
    }
}

/// Takes a name out.
pub(crate) fn take_out(entries: &mut Vec<(LabelName, Text)>, name: &str)
    requires { IsTrue (is_sorted byte_cmp entries.old.items) }
    ensures { entries.new.items ≡ without entries.old.items name.now }
{
    if let Ok(i) = index_of(entries.as_slice(), name) {
        let _ = entries.remove(i);
    }
}
