//! Giving a label a text.
ghost use Rattle.std.specs.Prelude.{◌≡◌, OnOk};
ghost use Rattle.relabel.specs.Effect.{with_named, replaced};

use crate::input::input_of;
use crate::rule_matcher::RuleMatcher;
use label_sets::{LabelError, Labels};
use std::alloc::{AllocError, Global};

impl<'r> RuleMatcher<'r> {
    pub(crate) fn replace(&mut self, alloc: Global, labels: &mut Labels) -> Result<(), AllocError>
        ensures value { OnOk result (labels.new ≡ replaced self.old labels.old) }
        ensures same { self.new ≡ self.old }
    {
        let input = input_of(alloc, self.rule.settings(), labels)?;
        match self.expand(alloc, input.as_str())? {
            Some((name, text)) => set_named(labels, name.as_str(), text.as_str()),
            None => Ok(()),
        }
    }
}

/// Gives the label of this name the text, where the name is a label name.
pub(crate) fn set_named(labels: &mut Labels, name: &str, text: &str) -> Result<(), AllocError>
    ensures { OnOk result (labels.new ≡ with_named labels.old name.now text.now) }
{
    match labels.set(name, text) {
        Ok(()) => Ok(()),
        Err(LabelError::BadLabelName) => Ok(()),
        Err(LabelError::Memory) => Err(AllocError),
    }
}
