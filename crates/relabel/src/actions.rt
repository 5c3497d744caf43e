//! What each action makes of the labels of a target.
ghost use Rattle.std.specs.Prelude.{◌≡◌, IfOk};
ghost use Rattle.relabel.specs.Effect.{keep_if, effect};

mod filtering;
mod hashing;
mod mapping;
mod replacing;

use crate::action::Action;
use crate::rule_matcher::RuleMatcher;
use label_sets::Labels;
use std::alloc::{AllocError, Global};

impl<'r> RuleMatcher<'r> {
    /// Changes the labels as the rule says, or says that the rule drops the target.
    #[tactic(auto, unfolding(crate::specs::Effect::effect))]
    pub(crate) fn run(&mut self, alloc: Global, labels: &mut Labels) -> Result<bool, AllocError>
        ensures effect { IfOk result (λ kept. keep_if kept labels.new ≡ effect self.old labels.old) }
        ensures same { self.new ≡ self.old }
    {
        match self.rule.settings().action {
            Action::Replace => self.replace(alloc, labels)?,
            Action::Keep => return self.matches_input(alloc, labels),
            Action::Drop => return Ok(!self.matches_input(alloc, labels)?),
            Action::KeepEqual => return self.equals_target(alloc, labels),
            Action::DropEqual => return Ok(!self.equals_target(alloc, labels)?),
            Action::HashMod => self.hash(alloc, labels)?,
            Action::LabelMap => self.map_labels(alloc, labels)?,
            Action::LabelDrop => self.drop_labels(alloc, labels)?,
            Action::LabelKeep => self.keep_labels(alloc, labels)?,
        }
        Ok(true)
    }
}
