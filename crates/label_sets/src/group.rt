//! The labels that stand in the text of a target's group.
ghost use Rattle.std.specs.Prelude.{◌≡◌, filter};
ghost use Rattle.label_sets.specs.Target.{is_group_name};

use crate::name::LabelName;
use lists::Text;

/// Whether a label of this name stands in the text of a target's group.
fn is_group_name(name: &str) -> bool
    ensures { result ≡ is_group_name name.now }
{
    !name.as_bytes().starts_with(b"__")
        || name == "__scheme__"
        || name == "__metrics_path__"
        || name.as_bytes().starts_with(b"__param_")
}

/// Keeps the entries whose names stand in the text of a target's group.
pub(crate) fn keep_group_names(entries: &mut Vec<(LabelName, Text)>)
    ensures { entries.new.items ≡ filter (λ l. is_group_name l.0) entries.old.items }
{
    entries.retain(|entry| is_group_name(entry.0.as_str()));
}
