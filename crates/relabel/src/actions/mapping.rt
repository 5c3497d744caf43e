//! Copying labels to other names.
ghost use Rattle.std.specs.Prelude.{◌≡◌, IfOk, OnOk};
ghost use Rattle.std.specs.List.{filter_map};
ghost use Rattle.label_sets.specs.Labels.{names_of};
ghost use Rattle.relabel.specs.Effect.{copy_of, with_copies, mapped};

use crate::actions::replacing::set_named;
use crate::rule_matcher::RuleMatcher;
use label_sets::{LabelName, Labels};
use lists::{List, Text};
use std::alloc::{AllocError, Global};

impl<'r> RuleMatcher<'r> {
    pub(crate) fn map_labels(
        &mut self,
        alloc: Global,
        labels: &mut Labels,
    ) -> Result<(), AllocError>
        ensures value { OnOk result (labels.new ≡ mapped self.old labels.old) }
        ensures same { self.new ≡ self.old }
    {
        let copies = self.copies(alloc, labels)?;
        set_copies(labels, copies.as_slice())
    }

    /// The other name and the text of each label whose name matches.
    fn copies(&mut self, alloc: Global, labels: &Labels) -> Result<List<(Text, Text)>, AllocError>
        ensures value { IfOk result (λ v. v ≡ filter_map (copy_of self.old labels.now) (names_of labels.now)) }
        ensures same { self.new ≡ self.old }
    {
        let mut copies = List::new(alloc);
        for entry in labels.entries() {
            if let Some(copy) = self.copy_of(alloc, labels, &entry.0)? {
                copies.push(copy)?;
            }
        }
        Ok(copies)
    }

    fn copy_of(
        &mut self,
        alloc: Global,
        labels: &Labels,
        name: &LabelName,
    ) -> Result<Option<(Text, Text)>, AllocError>
        ensures value { IfOk result (λ o. o ≡ copy_of self.old labels.now name.now) }
        ensures same { self.new ≡ self.old }
    {
        match self.expand(alloc, name.as_str())? {
            Some((_, other)) => Ok(Some((other, Text::from_str(alloc, labels.get(name))?))),
            None => Ok(None),
        }
    }
}

/// Gives one label after the other its text.
fn set_copies(labels: &mut Labels, copies: &[(Text, Text)]) -> Result<(), AllocError>
    ensures { OnOk result (labels.new ≡ with_copies labels.old copies.now) }
{
    for copy in copies {
        set_named(labels, copy.0.as_str(), copy.1.as_str())?;
    }
    Ok(())
}
