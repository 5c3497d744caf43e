//! A rule with what its pattern's searches write to.
ghost use Rattle.std.specs.Prelude.{◌≡◌, IfOk};
ghost use Rattle.relabel.specs.Patterns.{matches as is_match};
ghost use Rattle.relabel.specs.Effect.{expansions as expansions_of};

use crate::expanding::expansions;
use crate::rule::Rule;
use lists::Text;
use regex::Matcher;
use std::alloc::{AllocError, Global};
use std::marker::Model;

/// A rule with what its searches write to. Contracts see what the rule says.
#[derive(Drop)]
pub(crate) struct RuleMatcher<'r> {
    pub(crate) rule: &'r Rule,
    matcher: Matcher<'r>,
}

impl<'r> Model for RuleMatcher<'r> {
    ghost use Rattle.regex.specs.Strings.{matcher_pattern};
    ghost use Rattle.relabel.specs.declared.rule.RuleSettings.{RuleSettings};
    ghost use Rattle.relabel.specs.Patterns.{FindsAs};

    ghost Value = { RuleSettings };

    ghost view = { λ w. w.rule.now };

    ghost invariant = { λ w. FindsAs w.rule.now.pattern (matcher_pattern w.matcher) };
}

impl<'r> RuleMatcher<'r> {
    pub(crate) fn new(alloc: Global, rule: &'r Rule) -> Result<RuleMatcher<'r>, AllocError>
        ensures { IfOk result (λ w. w ≡ rule.now) }
    {
        let matcher = rule.matcher(alloc)?;
        Ok(RuleMatcher { rule, matcher })
    }

    /// Whether the pattern matches the text.
    pub(crate) fn matches(&mut self, text: &str) -> bool
        ensures value { result ≡ is_match self.old.pattern text.now }
        ensures same { self.new ≡ self.old }
    {
        self.matcher.is_match(text)
    }

    /// What the target label and the replacement stand for, where the pattern matches the text.
    pub(crate) fn expand(
        &mut self,
        alloc: Global,
        text: &str,
    ) -> Result<Option<(Text, Text)>, AllocError>
        ensures value { IfOk result (λ o. o ≡ expansions_of self.old text.now) }
        ensures same { self.new ≡ self.old }
    {
        let templates = (self.rule.target(), self.rule.replacement());
        expansions(alloc, &mut self.matcher, templates, text)
    }
}
