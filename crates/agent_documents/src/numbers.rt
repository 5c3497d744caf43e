//! Numbers in decimal, and the heads of lists, which are made of them.
ghost use Rattle.std.specs.Prelude.{◌≡◌};
ghost use Rattle.agent_documents.specs.Numbers.{head_said, number_said, small_said, until_said};

use agent_core::Head;

/// The whole number of at most 64 bits that a text writes.
pub(crate) fn number_in(text: &str) -> Option<u64>
    ensures { result ≡ number_said text.now }
{
    text.parse::<u64>().ok()
}

/// The whole number of at most 32 bits that a text writes.
pub(crate) fn small_in(text: &str) -> Option<u32>
    ensures { result ≡ small_said text.now }
{
    match number_in(text) {
        Some(number) if number < 1 << 32 => Some(number as u32),
        _ => None,
    }
}

/// The head of a list, of the texts of its headers. A missing one is an empty text.
pub fn read_head(collector: &str, epoch: &str, number: &str, round: &str) -> Option<Head>
    ensures { result ≡ head_said collector.now epoch.now number.now round.now }
{
    let collector = small_in(collector)?;
    let epoch = number_in(epoch)?;
    let number = small_in(number)?;
    let round = small_in(round)?;
    Some(Head {
        collector,
        epoch,
        number,
        round,
    })
}

/// The time up to which a round is open for certain, of the texts of its headers, where the list was asked for at a time.
pub fn read_until(at: u64, age: &str, length: &str) -> Option<u64>
    ensures { result ≡ until_said at age.now length.now }
{
    let age = number_in(age)?;
    let length = number_in(length)?;
    Some(at.saturating_add(length.saturating_sub(age)))
}
