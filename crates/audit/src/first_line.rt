//! The first line of a journal.
ghost use Rattle.std.specs.Prelude.{◌≡◌};
ghost use Rattle.audit.specs.Checks.{first_line};

/// The bytes before the first line feed, or all.
pub(crate) fn first_line(journal: &[u8]) -> &[u8]
    ensures { result.now ≡ first_line journal.now }
{
    match journal.iter().position(|byte| *byte == b'\n') {
        Some(end) => &journal[..end],
        None => journal,
    }
}
