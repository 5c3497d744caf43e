//! Texts in HTML.
ghost use Rattle.std.specs.Prelude.{◌≡◌, ◌++◌, OnOk};
ghost use Rattle.hypertext.specs.Escaping.{escaped, escaped_byte};

use std::alloc::AllocError;

/// Appends a text that is no markup.
pub(crate) fn push_escaped(bytes: &mut Vec<u8>, text: &[u8]) -> Result<(), AllocError>
    ensures { OnOk result (bytes.new.items ≡ bytes.old.items ++ escaped text.now) }
{
    for byte in text {
        push_escaped_byte(bytes, *byte)?;
    }
    Ok(())
}

fn push_escaped_byte(bytes: &mut Vec<u8>, byte: u8) -> Result<(), AllocError>
    ensures { OnOk result (bytes.new.items ≡ bytes.old.items ++ escaped_byte byte) }
{
    match byte {
        b'&' => bytes.extend_from_slice(b"&amp;"),
        b'<' => bytes.extend_from_slice(b"&lt;"),
        b'>' => bytes.extend_from_slice(b"&gt;"),
        b'"' => bytes.extend_from_slice(b"&quot;"),
        b'\'' => bytes.extend_from_slice(b"&#39;"),
        _ => Ok(bytes.push(byte)?),
    }
}
