//! What templates stand for at a match.
ghost use Rattle.std.specs.Prelude.{◌≡◌, IfOk};
ghost use Rattle.regex.specs.Patterns.{find_str};
ghost use Rattle.regex.specs.Strings.{matcher_pattern, expansion_of};
ghost use Rattle.relabel.specs.Expanding.{AreExpansions};

use lists::Text;
use regex::{Captures, Matcher, Template};
use std::alloc::{AllocError, Global};

/// What two templates stand for at the first match in the text, if there is one.
pub(crate) fn expansions(
    alloc: Global,
    matcher: &mut Matcher<'_>,
    templates: (&Template, &Template),
    text: &str,
) -> Result<Option<(Text, Text)>, AllocError>
    ensures value { IfOk result (AreExpansions (find_str (matcher_pattern matcher.old) text.now 0) templates.entry.0.now templates.entry.1.now text.now) }
    ensures same { matcher_pattern matcher.new ≡ matcher_pattern matcher.old }
{
    let Some(groups) = matcher.captures(text) else {
        return Ok(None);
    };
    let first = expansion(alloc, &groups, templates.0)?;
    let second = expansion(alloc, &groups, templates.1)?;
    Ok(Some((first, second)))
}

fn expansion(
    alloc: Global,
    groups: &Captures<'_, '_>,
    template: &Template,
) -> Result<Text, AllocError>
    ensures { IfOk result (λ t. t ≡ expansion_of groups.now template.now) }
{
    let mut text = String::new(alloc);
    groups.expand(alloc, template, &mut text)?;
    Ok(Text::from_string(text))
}
