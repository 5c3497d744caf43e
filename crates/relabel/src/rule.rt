//! Rules: what they say, and what is compiled of it.
ghost use Rattle.std.specs.Prelude.{◌≡◌, IfOk, IsTrue, Some, unwrap_or, []};
ghost use Rattle.regex.specs.Strings.{matcher_pattern, IsReadFrom};
ghost use Rattle.relabel.specs.Patterns.{FindsAs, names_in};
ghost use Rattle.serde_json.specs.View.{view};
ghost use Rattle.relabel.specs.Compiling.{AreTaken, any_text};
ghost use Rattle.relabel.specs.Reading.{Gives, Reads};
ghost use Rattle.relabel.specs.Spelling.{settings_for as settings_for_action, settings_of as settings_of_fields, settings_said, has_fit_target as has_fit, with_pattern, rule_said, is_fit};

use crate::action::{Action, action_named};
use crate::error::RuleError;
use crate::fields::{Fields, fields_in};
use crate::name::is_label_name;
use crate::pattern::{Compiler, RegexCrate, compiled_by};
use label_sets::LabelName;
use lists::{List, Text};
use regex::{Matcher, Regex, Template};
use serde_json::Value;
use std::alloc::{AllocError, Global};
use std::marker::Model;

/// What a rule says.
#[derive(Drop)]
pub struct RuleSettings {
    pub source_labels: List<LabelName>,
    pub separator: Text,
    /// Empty where it is absent.
    pub target_label: Text,
    pub pattern: Text,
    pub modulus: u64,
    pub replacement: Text,
    pub action: Action,
}

/// A relabelling rule, with its pattern and its templates compiled. Contracts see what it says.
#[derive(Drop)]
pub struct Rule {
    settings: RuleSettings,
    regex: Regex,
    target: Template,
    replacement: Template,
}

impl Model for Rule {
    ghost use Rattle.relabel.specs.declared.rule.RuleSettings.{RuleSettings};
    ghost use Rattle.std.specs.Prelude.{IsTrue};
    ghost use Rattle.relabel.specs.Compiling.{IsCompiled};
    ghost use Rattle.relabel.specs.Spelling.{is_fit};

    ghost Value = { RuleSettings };

    ghost view = { λ r. r.settings };

    ghost invariant = { λ r. IsCompiled r.settings r.regex r.target r.replacement × IsTrue (is_fit r.settings) };
}

impl Rule {
    /// The rule that a JSON value spells.
    pub fn read(alloc: Global, value: &Value) -> Result<Rule, RuleError>
        ensures { Reads any_text result (rule_said (view value.now)) }
    {
        Rule::read_by(&RegexCrate {}, alloc, value)
    }

    /// The same with a compiler of patterns. A pattern that the grammar reads is refused only where the compiler was asked
    /// and said of it, or of its whole form, that it is too big.
    pub fn read_by<C: Compiler>(
        compiler: &C,
        alloc: Global,
        value: &Value,
    ) -> Result<Rule, RuleError>
        ensures said { Reads C.too_big result (rule_said (view value.now)) }
        ensures taken { IfOk result (λ rule. AreTaken C.taken rule.pattern) }
    {
        let settings = settings_in(alloc, value)?;
        Rule::compile(compiler, alloc, settings)
    }

    /// What the rule says.
    pub fn settings(&self) -> &RuleSettings
        ensures all { result.now ≡ self.now }
        ensures fit { IsTrue (is_fit self.now) }
    {
        &self.settings
    }

    /// What searches for the rule's pattern in whole texts.
    pub(crate) fn matcher(&self, alloc: Global) -> Result<Matcher<'_>, AllocError>
        ensures { IfOk result (λ m. FindsAs self.now.pattern (matcher_pattern m)) }
    {
        self.regex.matcher(alloc)
    }

    /// The target label as a template.
    pub(crate) fn target(&self) -> &Template
        ensures { IsReadFrom (names_in self.now.pattern) self.now.target_label result.now }
    {
        &self.target
    }

    pub(crate) fn replacement(&self) -> &Template
        ensures { IsReadFrom (names_in self.now.pattern) self.now.replacement result.now }
    {
        &self.replacement
    }

    fn compile<C: Compiler>(
        compiler: &C,
        alloc: Global,
        settings: RuleSettings,
    ) -> Result<Rule, RuleError>
        requires { IsTrue (is_fit settings) }
        ensures said { Reads C.too_big result (with_pattern settings) }
        ensures taken { IfOk result (λ rule. AreTaken C.taken rule.pattern) }
    {
        let regex = compiled_by(compiler, alloc, settings.pattern.as_str())?;
        let names = regex.capture_names();
        let target = Template::new(alloc, names, settings.target_label.as_str())?;
        let replacement = Template::new(alloc, names, settings.replacement.as_str())?;
        Ok(Rule {
            settings,
            regex,
            target,
            replacement,
        })
    }
}

fn settings_in(alloc: Global, value: &Value) -> Result<RuleSettings, RuleError>
    ensures said { Gives result (settings_said (view value.now)) }
    ensures fit { IfOk result (λ s. IsTrue (is_fit s)) }
{
    let fields = fields_in(alloc, value)?;
    settings_of(alloc, fields)
}

#[tactic(auto, unfolding(crate::specs::Spelling::settings_of))]
fn settings_of(alloc: Global, fields: Fields) -> Result<RuleSettings, RuleError>
    ensures said { Gives result (settings_of_fields fields) }
    ensures fit { IfOk result (λ s. IsTrue (is_fit s)) }
{
    let action = action_named(fields.action.as_str());
    if !has_fit_target(alloc, action, &fields.target_label)? {
        return Err(RuleError::Shape);
    }
    let action = action.ok_or(RuleError::UnknownAction)?;
    settings_for(alloc, fields, action)
}

/// Whether a target label that has to be a label name is one.
fn has_fit_target(
    alloc: Global,
    action: Option<Action>,
    target_label: &Option<Text>,
) -> Result<bool, AllocError>
    ensures { IfOk result (λ b. b ≡ has_fit action target_label.now) }
{
    match (action, target_label) {
        (Some(action), Some(text)) if action.names_its_target() => {
            is_label_name(alloc, text.as_str())
        }
        _ => Ok(true),
    }
}

fn settings_for(alloc: Global, fields: Fields, action: Action) -> Result<RuleSettings, RuleError>
    requires { IsTrue (has_fit (Some action) fields.target_label) }
    ensures said { Gives result (settings_for_action fields action) }
    ensures fit { IfOk result (λ s. IsTrue (is_fit s)) }
{
    let Fields {
        source_labels,
        separator,
        target_label,
        pattern,
        modulus,
        replacement,
        action: _name,
    } = fields;
    let target_label = text_or_empty(alloc, target_label);
    if action.needs_target() && target_label.as_str().is_empty() {
        return Err(RuleError::NoTargetLabel);
    }
    if action.is_hash_mod() && modulus == 0 {
        return Err(RuleError::ZeroModulus);
    }
    Ok(RuleSettings {
        source_labels,
        separator,
        target_label,
        pattern,
        modulus,
        replacement,
        action,
    })
}

fn text_or_empty(alloc: Global, text: Option<Text>) -> Text
    ensures { result ≡ unwrap_or text [] }
{
    match text {
        Some(text) => text,
        None => Text::from_string(String::new(alloc)),
    }
}
