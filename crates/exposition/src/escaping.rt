//! Values of labels.
ghost use Rattle.std.specs.Prelude.{◌≡◌, ◌++◌, OnOk};
ghost use Rattle.exposition.specs.Escaping.{escaped, escaped_byte};

use std::alloc::AllocError;

/// Appends a label's value.
pub(crate) fn push_escaped(bytes: &mut Vec<u8>, value: &[u8]) -> Result<(), AllocError>
    ensures { OnOk result (bytes.new.items ≡ bytes.old.items ++ escaped value.now) }
{
    for byte in value {
        push_escaped_byte(bytes, *byte)?;
    }
    Ok(())
}

fn push_escaped_byte(bytes: &mut Vec<u8>, byte: u8) -> Result<(), AllocError>
    ensures { OnOk result (bytes.new.items ≡ bytes.old.items ++ escaped_byte byte) }
{
    match byte {
        b'\\' => bytes.extend_from_slice(b"\\\\"),
        b'"' => bytes.extend_from_slice(b"\\\""),
        b'\n' => bytes.extend_from_slice(b"\\n"),
        _ => Ok(bytes.push(byte)?),
    }
}
