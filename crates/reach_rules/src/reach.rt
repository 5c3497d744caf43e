//! The rules by which a collector reaches targets.
ghost use Rattle.std.specs.Prelude.{◌≡◌, ◌≢◌, ◌≤◌, ◌↔◌, length, IsTrue, IfOk, IfErr, IfSome};
ghost use Rattle.serde_json.specs.View.{view};
ghost use Rattle.label_sets.specs.Target.{FinalTarget};
ghost use Rattle.reach_rules.specs.Rules.{holds_on, reaches, Reaches};
ghost use Rattle.reach_rules.specs.Spelling.{reach_spelled};
ghost use Rattle.reach_rules.specs.declared.reach.TheConstants.{MOST_RULES};

use crate::error::ReachError;
use crate::read::rules_of;
use crate::rule::{ReachRule, ReachTest};
use label_sets::Target;
use lists::{List, Plain};
use serde_json::Value;
use std::alloc::{AllocError, Global};
use std::marker::Model;

/// The rules by which a collector reaches targets. Contracts see the list of the rules.
#[derive(Debug, Drop)]
pub struct Reach {
    rules: List<ReachRule>,
}

impl Model for Reach {
    ghost use Rattle.std.specs.Prelude.{List, ◌≤◌, length};
    ghost use Rattle.reach_rules.specs.declared.rule.ReachRule.{ReachRule};
    ghost use Rattle.reach_rules.specs.declared.reach.TheConstants.{MOST_RULES};

    ghost Value = { List ReachRule };

    ghost view = { λ r. r.rules };

    ghost invariant = { λ r. length r.rules ≤ MOST_RULES };
}

/// The most rules of a reach.
pub const MOST_RULES: usize = 32;

impl Reach {
    /// The rules that a JSON value spells.
    pub fn read(alloc: Global, value: &Value) -> Result<Reach, ReachError>
        ensures read { IfOk result (λ r. reach_spelled (view value.now) ≡ Ok r) }
        ensures refused { IfErr result
            (λ e. e ≢ ReachError.Memory → reach_spelled (view value.now) ≡ Err e) }
    {
        let items = value.as_array().ok_or(ReachError::Shape)?;
        let rules = rules_of(alloc, items.as_slice())?;
        if rules.len() > MOST_RULES {
            return Err(ReachError::TooManyRules);
        }
        Ok(Reach { rules })
    }

    /// The rules.
    pub(crate) fn rules(&self) -> &[ReachRule]
        ensures rules { result.now ≡ self.now }
        ensures few { length self.now ≤ MOST_RULES }
    {
        self.rules.as_slice()
    }

    /// Whether the first rule whose test holds on the target allows it. Without such a rule the target is
    /// not reached. It takes no memory.
    pub fn reaches(&self, target: &Target) -> bool
        ensures value { result ≡ reaches self.now target.now }
        ensures rule { IsTrue result ↔ Reaches self.now target.now }
    {
        decides(self.rules.as_slice(), target)
    }

    /// What it says of every target, where it needs to look at none to tell.
    pub(crate) fn answer_to_all(&self) -> Option<bool>
        ensures { IfSome result (λ answer. (target : FinalTarget) → reaches self.now target ≡ answer) }
    {
        decided(self.rules.as_slice())
    }
}

/// What these rules say of every target, where the first of them holds on each or there is none.
fn decided(rules: &[ReachRule]) -> Option<bool>
    ensures { IfSome result (λ answer. (target : FinalTarget) → reaches rules.now target ≡ answer) }
{
    match rules.first() {
        None => Some(false),
        Some(rule) if matches!(&rule.test, ReachTest::Any) => Some(rule.allow),
        Some(_) => None,
    }
}

/// What the first rule whose test holds on the target says.
fn decides(rules: &[ReachRule], target: &Target) -> bool
    ensures { result ≡ reaches rules.now target.now }
{
    for rule in rules {
        if holds(&rule.test, target) {
            return rule.allow;
        }
    }
    false
}

/// Whether a test holds on a target.
fn holds(test: &ReachTest, target: &Target) -> bool
    ensures { result ≡ holds_on test.now target.now }
{
    match test {
        ReachTest::Any => true,
        ReachTest::Present(label) => !target.get(label).is_empty(),
        ReachTest::Equals(label, text) => target.get(label) == text.as_str(),
    }
}

impl Plain for Reach {
    fn copy(&self) -> Result<Reach, AllocError> {
        let rules = self.rules.copy()?;
        Ok(Reach { rules })
    }

    fn same(&self, other: &Reach) -> bool {
        self.rules.same(&other.rules)
    }
}
