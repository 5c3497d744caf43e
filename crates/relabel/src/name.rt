//! Whether a text is a label name.
ghost use Rattle.std.specs.Prelude.{◌≡◌, IfOk};
ghost use Rattle.label_sets.specs.Name.{is_label_name as is_name};

use label_sets::{LabelError, LabelName};
use std::alloc::{AllocError, Global};

/// Whether the text is a label name.
pub(crate) fn is_label_name(alloc: Global, text: &str) -> Result<bool, AllocError>
    ensures { IfOk result (λ b. b ≡ is_name text.now) }
{
    match LabelName::read(alloc, text) {
        Ok(_) => Ok(true),
        Err(LabelError::BadLabelName) => Ok(false),
        Err(LabelError::Memory) => Err(AllocError),
    }
}
