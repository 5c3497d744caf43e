//! Segments of links.
ghost use Rattle.std.specs.Prelude.{◌≡◌, ◌++◌, ◌<◌, OnOk};
ghost use Rattle.hypertext.specs.Segments.{hex_digit, is_unreserved, segment, segment_byte};

use std::alloc::AllocError;

/// Appends one segment of a path.
pub(crate) fn push_segment(bytes: &mut Vec<u8>, text: &[u8]) -> Result<(), AllocError>
    ensures { OnOk result (bytes.new.items ≡ bytes.old.items ++ segment text.now) }
{
    for byte in text {
        push_segment_byte(bytes, *byte)?;
    }
    Ok(())
}

fn push_segment_byte(bytes: &mut Vec<u8>, byte: u8) -> Result<(), AllocError>
    ensures { OnOk result (bytes.new.items ≡ bytes.old.items ++ segment_byte byte) }
{
    if is_unreserved(byte) {
        return Ok(bytes.push(byte)?);
    }
    bytes.extend_from_slice(&[b'%', hex_digit(byte / 16), hex_digit(byte % 16)])
}

fn is_unreserved(byte: u8) -> bool
    ensures { result ≡ is_unreserved byte }
{
    matches!(byte, b'0'..=b'9' | b'A'..=b'Z' | b'a'..=b'z' | b'-' | b'.' | b'_' | b'~')
}

fn hex_digit(digit: u8) -> u8
    requires { digit < 16 }
    ensures { result ≡ hex_digit digit }
{
    if digit < 10 {
        b'0' + digit
    } else {
        b'A' + (digit - 10)
    }
}
