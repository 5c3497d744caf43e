//! Where lines end in some bytes.
ghost use Rattle.std.specs.Prelude.{◌≡◌, ◌<◌, ◌≤◌, false, length, take};
ghost use Rattle.journal_blocks.specs.Blocks.{Fits, IsPiece, ends_line};

/// Whether the bytes end with a line feed.
pub(crate) fn ends_line(bytes: &[u8]) -> bool
    ensures { result ≡ ends_line bytes.now }
{
    match bytes.last() {
        Some(byte) => *byte == b'\n',
        None => false,
    }
}

/// How many bytes there are through the first line feed; all where there is none.
pub(crate) fn through_first(bytes: &[u8]) -> usize
    requires { 0 < length bytes.now }
    ensures some { 0 < result }
    ensures there { result ≤ length bytes.now }
    ensures piece { IsPiece (take result bytes.now) }
{
    for (i, byte) in bytes.iter().enumerate() {
        if *byte == b'\n' {
            return i + 1;
        }
    }
    bytes.len()
}

/// How many bytes there are through the last line feed; all where there is none.
pub(crate) fn through_last(bytes: &[u8]) -> usize
    requires { 0 < length bytes.now }
    ensures some { 0 < result }
    ensures there { result ≤ length bytes.now }
    ensures fits { Fits false (take result bytes.now) }
{
    let mut count = bytes.len();
    while count > 0 {
        if bytes[count - 1] == b'\n' {
            return count;
        }
        count -= 1;
    }
    bytes.len()
}
