//! Keeping and dropping, of targets and of labels.
ghost use Rattle.std.specs.Prelude.{◌≡◌, IfOk, OnOk, not, filter, if◌then◌else◌};
ghost use Rattle.label_sets.specs.Labels.{names_of};
ghost use Rattle.relabel.specs.Patterns.{matches};
ghost use Rattle.relabel.specs.Effect.{input_matches, input_is_target};

use crate::input::input_of;
use crate::rule_matcher::RuleMatcher;
use label_sets::{LabelName, Labels};
use lists::{List, Plain};
use std::alloc::{AllocError, Global};

impl<'r> RuleMatcher<'r> {
    /// Whether the pattern matches the input.
    pub(crate) fn matches_input(
        &mut self,
        alloc: Global,
        labels: &Labels,
    ) -> Result<bool, AllocError>
        ensures value { IfOk result (λ b. b ≡ input_matches self.old labels.now) }
        ensures same { self.new ≡ self.old }
    {
        let input = input_of(alloc, self.rule.settings(), labels)?;
        Ok(self.matches(input.as_str()))
    }

    /// Whether the input is the text of the target label.
    pub(crate) fn equals_target(&self, alloc: Global, labels: &Labels) -> Result<bool, AllocError>
        ensures { IfOk result (λ b. b ≡ input_is_target self.now labels.now) }
    {
        let rule = self.rule.settings();
        let input = input_of(alloc, rule, labels)?;
        Ok(input.as_str() == labels.get(rule.target_label.as_str()))
    }

    /// Removes the labels whose names match.
    pub(crate) fn drop_labels(
        &mut self,
        alloc: Global,
        labels: &mut Labels,
    ) -> Result<(), AllocError>
        ensures value { OnOk result (labels.new ≡ filter (λ l. not (matches self.old.pattern l.0)) labels.old) }
        ensures same { self.new ≡ self.old }
    {
        let names = self.names_where(alloc, labels, true)?;
        for name in names.as_slice() {
            labels.remove(name);
        }
        Ok(())
    }

    /// Removes the labels whose names do not match.
    pub(crate) fn keep_labels(
        &mut self,
        alloc: Global,
        labels: &mut Labels,
    ) -> Result<(), AllocError>
        ensures value { OnOk result (labels.new ≡ filter (λ l. matches self.old.pattern l.0) labels.old) }
        ensures same { self.new ≡ self.old }
    {
        let names = self.names_where(alloc, labels, false)?;
        for name in names.as_slice() {
            labels.remove(name);
        }
        Ok(())
    }

    /// The names that match, or those that do not.
    fn names_where(
        &mut self,
        alloc: Global,
        labels: &Labels,
        matching: bool,
    ) -> Result<List<LabelName>, AllocError>
        ensures value { IfOk result (λ names. names ≡ filter (λ name. if matching then matches self.old.pattern name else not (matches self.old.pattern name)) (names_of labels.now)) }
        ensures same { self.new ≡ self.old }
    {
        let mut names = List::new(alloc);
        for entry in labels.entries() {
            if self.matches(entry.0.as_str()) == matching {
                names.push(entry.0.copy()?)?;
            }
        }
        Ok(names)
    }
}
