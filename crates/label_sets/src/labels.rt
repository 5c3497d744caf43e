//! Label sets.
ghost use Rattle.std.specs.Prelude.{◌≡◌, ◌≢◌, ◌↔◌, IfOk, OnOk, OnErr, IsTrue, [], false, filter};
ghost use Rattle.label_sets.specs.Name.{is_label_name};
ghost use Rattle.label_sets.specs.Target.{with_instance, is_group_name};
ghost use Rattle.label_sets.specs.Written.{labels_text};
ghost use Rattle.label_sets.specs.Labels.{label_text, without, with_label, names_of, IsAscending, IsLabelSet};

use crate::entries::{put, take_out, text_of};
use crate::error::LabelError;
use crate::group::keep_group_names;
use crate::name::{LabelName, is_label_name};
use crate::texts::text_of_labels;
use lists::{List, Plain, Text, all_same, copies};
use std::alloc::{AllocError, Global};
use std::convert::AsStr;
use std::marker::Model;

/// A label set. Contracts see the list of its names and texts in byte order of the names.
#[derive(Debug, Drop)]
pub struct Labels {
    entries: Vec<(LabelName, Text)>,
}

impl Model for Labels {
    ghost use Rattle.label_sets.specs.Labels.{LabelList, IsLabelSet};

    ghost Value = { LabelList };

    ghost view = { λ s. s.entries.items };

    ghost invariant = { λ s. IsLabelSet s.entries.items };
}

impl Labels {
    /// The empty set. It takes no memory.
    pub fn new(alloc: Global) -> Labels
        ensures { result ≡ [] }
    {
        Labels {
            entries: Vec::new(alloc),
        }
    }

    /// The text of a name, empty where the name is missing. It takes no memory.
    pub fn get<N: AsStr + Drop>(&self, name: N) -> &str
        ensures text { result.now ≡ label_text self.now (N.text name) }
        ensures set { IsLabelSet self.now }
    {
        text_of(self.entries.as_slice(), name.as_str())
    }

    /// Gives a name a text. An empty text removes the name, and takes no memory.
    pub fn set<N: AsStr + Drop>(&mut self, name: N, text: &str) -> Result<(), LabelError>
        ensures ok { OnOk result (self.new ≡ with_label self.old (N.text name) text.now) }
        ensures bad_name { (result ≡ Err LabelError.BadLabelName)
            ↔ (is_label_name (N.text name) ≡ false) }
        ensures err { OnErr result (self.new ≡ self.old) }
        // Only a text that is not empty takes memory.
        ensures removal { text.now ≡ [] → result ≢ Err LabelError.Memory }
    {
        if !is_label_name(name.as_str()) {
            return Err(LabelError::BadLabelName);
        }
        put(&mut self.entries, name.as_str(), text)?;
        Ok(())
    }

    /// Takes a name out. It takes no memory.
    pub fn remove<N: AsStr + Drop>(&mut self, name: N)
        ensures { self.new ≡ without self.old (N.text name) }
    {
        take_out(&mut self.entries, name.as_str());
    }
}

impl Labels {
    /// All names, in byte order.
    pub fn names(&self) -> Result<List<LabelName>, AllocError>
        ensures names { IfOk result (λ n. n ≡ names_of self.now) }
        ensures ascending { IsAscending (names_of self.now) }
    {
        names_in(*self.entries.allocator(), self.entries.as_slice())
    }

    /// All names with their texts, in byte order of the names. It takes no memory.
    pub fn entries(&self) -> &[(LabelName, Text)]
        ensures all { result.now ≡ self.now }
        ensures set { IsLabelSet self.now }
    {
        self.entries.as_slice()
    }

    /// The set as one compact JSON object, its members in byte order of the names.
    pub fn to_json(&self) -> Result<Text, AllocError>
        ensures { IfOk result (λ t. t ≡ labels_text self.now) }
    {
        text_of_labels(*self.entries.allocator(), self.entries.as_slice())
    }
}

impl Labels {
    /// Gives `instance` the address where it is missing.
    pub(crate) fn add_instance(&mut self) -> Result<(), AllocError>
        ensures ok { OnOk result (self.new ≡ with_instance self.old) }
    {
        if !self.get("instance").is_empty() {
            return Ok(());
        }
        let address = Text::from_str(*self.entries.allocator(), self.get("__address__"))?;
        put(&mut self.entries, "instance", address.as_str())?;
        Ok(())
    }

    /// Keeps the labels of a target's group alone.
    pub(crate) fn keep_group(&mut self)
        ensures { self.new ≡ filter (λ l. is_group_name l.0) self.old }
    {
        keep_group_names(&mut self.entries);
    }
}

impl Plain for Labels {
    fn copy(&self) -> Result<Labels, AllocError> {
        let entries = copies(*self.entries.allocator(), self.entries.as_slice())?;
        Ok(Labels { entries })
    }

    fn same(&self, other: &Labels) -> bool {
        all_same(self.entries.as_slice(), other.entries.as_slice())
    }
}

/// The names of all entries.
fn names_in(alloc: Global, entries: &[(LabelName, Text)]) -> Result<List<LabelName>, AllocError>
    ensures { IfOk result (λ n. n ≡ names_of entries.now) }
{
    let mut names = List::new(alloc);
    for entry in entries {
        names.push(entry.0.copy()?)?;
    }
    Ok(names)
}
