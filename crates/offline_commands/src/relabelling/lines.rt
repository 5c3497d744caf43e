//! The texts on findings.

ghost use Rattle.std.specs.Prelude.{◌≡◌, IfOk, string_bytes};
ghost use Rattle.offline_commands.specs.Relabelling.{finding_text};

use super::Finding;
use lists::Text;
use relabel::RuleError;
use std::alloc::{AllocError, Global};

/// The text on a finding.
pub(super) fn text_of(alloc: Global, finding: &Finding) -> Result<String, AllocError>
    ensures { IfOk result (λ text. string_bytes text ≡ finding_text finding.now) }
{
    match finding {
        Finding::BadLabelName => String::from_str(alloc, "refused BadLabelName\n"),
        Finding::RefusedRule(number, error) => refused_line(alloc, *number, *error),
        Finding::Kept { labels, target } => kept_lines(alloc, labels, target),
        Finding::Dropped(number) => format!(in alloc; "dropped {number}\n"),
    }
}

fn refused_line(alloc: Global, number: usize, error: RuleError) -> Result<String, AllocError>
    ensures { IfOk result (λ text. string_bytes text ≡ finding_text (Finding.RefusedRule number error)) }
{
    let name = error.name();
    format!(in alloc; "refused {number} {name}\n")
}

fn kept_lines(alloc: Global, labels: &Text, target: &Option<Text>) -> Result<String, AllocError>
    ensures { IfOk result (λ text. string_bytes text ≡ finding_text (Finding.Kept labels.now target.now)) }
{
    let labels = labels.as_str();
    match target {
        Some(target) => {
            let target = target.as_str();
            format!(in alloc; "kept {labels}\ntarget {target}\n")
        }
        None => format!(in alloc; "kept {labels}\nno address\n"),
    }
}
