//! Writing a list of target groups.
ghost use Rattle.std.specs.Prelude.{◌≡◌, ◌++◌, IfOk, OnOk, map};
ghost use Rattle.sd_documents.specs.Written.{list_text};
ghost use Rattle.sd_documents.specs.inner.Commas.{after_commas};

use std::alloc::{AllocError, Global};

/// The JSON list of groups whose texts these are.
pub fn write_groups(alloc: Global, texts: &[&str]) -> Result<Vec<u8>, AllocError>
    ensures { IfOk result (λ v. v.items ≡ list_text (map (λ t. t.now) texts.now)) }
{
    let Some((first, others)) = texts.split_first() else {
        return Vec::from_slice(alloc, b"[]");
    };
    let mut bytes = vec![in alloc; b'[']?;
    bytes.extend_from_slice(first.as_bytes())?;
    push_others(&mut bytes, others)?;
    bytes.push(b']')?;
    Ok(bytes)
}

/// Adds texts, each after a comma.
fn push_others(bytes: &mut Vec<u8>, texts: &[&str]) -> Result<(), AllocError>
    ensures { OnOk result (bytes.new.items ≡ bytes.old.items ++ after_commas (map (λ t. t.now) texts.now)) }
{
    for text in texts {
        bytes.push(b',')?;
        bytes.extend_from_slice(text.as_bytes())?;
    }
    Ok(())
}
