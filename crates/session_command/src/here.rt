//! The address of the page server, where a session's text names it.
ghost use Rattle.std.specs.Prelude.{◌≡◌, IfOk};
ghost use Rattle.session_command.specs.Here.{with_here as text_with_here};

use std::alloc::{AllocError, Global};

/// What stands for the address.
const MARK: &[u8] = b"@here";

/// The text with an address in place of each `@here`.
pub fn with_here(alloc: Global, text: &[u8], here: &str) -> Result<Vec<u8>, AllocError>
    ensures { IfOk result (λ v. v.items ≡ text_with_here here.now 0 text.now) }
{
    let mut put = Vec::new(alloc);
    let mut rest = text;
    while let Some((first, behind)) = rest.split_first() {
        match rest.strip_prefix(MARK) {
            Some(behind) => {
                put.extend_from_slice(here.as_bytes())?;
                rest = behind;
            }
            None => {
                put.push(*first)?;
                rest = behind;
            }
        }
    }
    Ok(put)
}
