//! The lines of a text.
ghost use Rattle.std.specs.Prelude.{◌≡◌, ◌∷◌, ◌≤◌, length};
ghost use Rattle.sealed_lines.specs.Lines.{lines_in, lines_left, size_left};

/// The first line, and what follows its line feed, if it has one.
pub fn first_line(text: &[u8]) -> (&[u8], Option<&[u8]>)
    ensures lines { lines_in text.now ≡ result.0.now ∷ lines_left result.1 }
    ensures shorter { size_left result.1 ≤ length text.now }
{
    match text.iter().position(|byte| *byte == b'\n') {
        Some(end) => (&text[..end], Some(&text[end + 1..])),
        None => (text, None),
    }
}
