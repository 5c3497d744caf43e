//! Lists of rules.
ghost use Rattle.std.specs.Prelude.{◌≡◌, ◌++◌, [], ◌∷◌, All, take, IfOk, IfErr, OnOk};
ghost use Rattle.serde_json.specs.View.{view, items_view};
ghost use Rattle.relabel.specs.Compiling.{AreTaken, any_text};
ghost use Rattle.relabel.specs.declared.rule.RuleSettings.{RuleSettings};
ghost use Rattle.relabel.specs.Reading.{Refuses};
ghost use Rattle.relabel.specs.Spelling.{rule_said};
ghost use Rattle.relabel.specs.Applying.{rules_said, IsRefusedFrom, relabelled};

use crate::error::{RuleError, RulesError};
use crate::pattern::{Compiler, RegexCrate};
use crate::rule::Rule;
use crate::rule_matcher::RuleMatcher;
use label_sets::Labels;
use lists::{List, Plain};
use serde_json::Value;
use std::alloc::{AllocError, Global};
use std::marker::Model;

/// A list of rules. Contracts see what the rules say.
#[derive(Drop)]
pub struct Rules {
    rules: List<Rule>,
}

impl Model for Rules {
    ghost use Rattle.std.specs.Prelude.{List};
    ghost use Rattle.relabel.specs.declared.rule.RuleSettings.{RuleSettings};

    ghost Value = { List RuleSettings };

    ghost view = { λ r. r.rules };
}

/// What rules make of the labels of a target.
#[derive(Drop)]
pub enum Relabelled {
    Kept(Labels),
    /// The number of the rule that dropped the target. The first rule has the number 1.
    Dropped(usize),
}

impl Rules {
    /// The rules that the JSON values spell.
    pub fn read(alloc: Global, values: &[Value]) -> Result<Rules, RulesError>
        ensures rules { IfOk result (λ rules. rules_said (items_view values.now) ≡ Ok rules) }
        ensures refused { IfErr result (IsRefusedFrom any_text 1 (items_view values.now)) }
    {
        Rules::read_by(&RegexCrate {}, alloc, values)
    }

    /// The same with a compiler of patterns. A pattern that the grammar reads is refused only where the compiler was asked
    /// and said of it, or of its whole form, that it is too big.
    pub fn read_by<C: Compiler>(
        compiler: &C,
        alloc: Global,
        values: &[Value],
    ) -> Result<Rules, RulesError>
        ensures rules { IfOk result (λ rules. rules_said (items_view values.now) ≡ Ok rules) }
        ensures taken { IfOk result (All (λ (rule : RuleSettings). AreTaken C.taken rule.pattern)) }
        ensures refused { IfErr result (IsRefusedFrom C.too_big 1 (items_view values.now)) }
    {
        let mut rules = List::new(alloc);
        for (index, value) in values.iter().enumerate() {
            if let Err(error) = add_rule(compiler, alloc, &mut rules, value) {
                return Err(RulesError {
                    number: index + 1,
                    error,
                });
            }
        }
        Ok(Rules { rules })
    }

    /// Applies the rules in order, up to the first that drops the target.
    pub fn apply(&self, alloc: Global, labels: &Labels) -> Result<Relabelled, AllocError>
        ensures { IfOk result (λ r. r ≡ relabelled self.now labels.now) }
    {
        let mut matchers = self.matchers(alloc)?;
        let labels = labels.copy()?;
        run(alloc, &mut matchers, labels)
    }

    /// The rules at work.
    pub(crate) fn matchers(&self, alloc: Global) -> Result<Vec<RuleMatcher<'_>>, AllocError>
        ensures { IfOk result (λ matchers. matchers.items ≡ self.now) }
    {
        let mut matchers = Vec::with_capacity(alloc, self.rules.len())?;
        for rule in self.rules.as_slice() {
            matchers.push(RuleMatcher::new(alloc, rule)?)?;
        }
        Ok(matchers)
    }
}

fn add_rule<C: Compiler>(
    compiler: &C,
    alloc: Global,
    rules: &mut List<Rule>,
    value: &Value,
) -> Result<(), RuleError>
    ensures rule { OnOk result ((rule : _) × (rule_said (view value.now) ≡ Ok rule) × AreTaken C.taken rule.pattern × (rules.new ≡ rules.old ++ rule ∷ [])) }
    ensures refused { IfErr result (λ e. Refuses C.too_big e (rule_said (view value.now))) }
{
    let rule = Rule::read_by(compiler, alloc, value)?;
    rules.push(rule)?;
    Ok(())
}

/// Runs the rules on the labels of a target.
pub(crate) fn run(
    alloc: Global,
    matchers: &mut [RuleMatcher<'_>],
    mut labels: Labels,
) -> Result<Relabelled, AllocError>
    ensures value { IfOk result (λ r. r ≡ relabelled matchers.old labels) }
    ensures same { matchers.new ≡ matchers.old }
{
    for index in 0..matchers.len() {
        if !matchers[index].run(alloc, &mut labels)? {
            return Ok(Relabelled::Dropped(index + 1));
        }
    }
    Ok(Relabelled::Kept(labels))
}
