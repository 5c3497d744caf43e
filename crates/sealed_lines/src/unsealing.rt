//! Reading lines with digests.
ghost use Rattle.std.specs.Prelude.{◌≡◌, [], ◌++◌, IfOk, IsTrue, OnOk};
ghost use Rattle.sealed_lines.specs.Chains.{behind};
ghost use Rattle.sealed_lines.specs.Lines.{lines_in, lines_left, with_line};
ghost use Rattle.sealed_lines.specs.Reading.{has_seal, is_end, is_sealed, opened_lines, outcome, plain_part, unquoted, unquoted_lines, unquoted_part, unsealed};

use crate::chain::Chain;
use crate::line::first_line;
use lists::List;
use std::alloc::{AllocError, Global};

/// How many bytes a digest has behind its line.
const SEAL: usize = 19;

/// What lines with digests say.
#[derive(Drop)]
pub struct PlainLines {
    /// The lines without their digests, each with its line feed.
    pub text: List<u8>,
    /// The digest of the last line.
    pub chain: Chain,
}

/// A line whose digest is not that of it and of the lines before it.
#[derive(Clone, Copy, Debug, PartialEq, Eq)]
pub struct WrongDigest {
    /// Its number, from 1.
    pub line: u64,
}

/// Whether each line of a text is to have a digest: its first line ends with a quotation mark, as that of no JSON object does.
#[tactic(auto, unfolding(crate::specs::Reading::is_sealed))]
pub fn is_sealed(text: &[u8]) -> bool
    ensures { result ≡ is_sealed text.now }
{
    let mut last = 0;
    for i in 0..text.len() {
        if text[i] == b'\n' {
            return last == b'"';
        }
        last = text[i];
    }
    last == b'"'
}

/// The lines of a text without their digests, if those are right. The last line may have no line feed.
#[tactic(auto, unfolding(crate::specs::Reading::unsealed))]
pub fn unsealed(alloc: Global, text: &[u8]) -> Result<Result<PlainLines, WrongDigest>, AllocError>
    ensures { IfOk result (λ r. r ≡ unsealed text.now) }
{
    let mut plain = Vec::new(alloc);
    let mut chain = Chain::start();
    match open_lines(alloc, &mut chain, text, &mut plain)? {
        Some(line) => Ok(Err(WrongDigest { line })),
        None => Ok(Ok(PlainLines {
            text: List::from_vec(plain),
            chain,
        })),
    }
}

/// Adds the lines without their digests, up to the first whose digest is wrong, and gives its number.
fn open_lines(
    alloc: Global,
    chain: &mut Chain,
    text: &[u8],
    plain: &mut Vec<u8>,
) -> Result<Option<u64>, AllocError>
    ensures { IfOk result (λ o. outcome o plain.new.items chain.new ≡ opened_lines plain.old.items 1 chain.old (lines_in text.now)) }
{
    let mut left = Some(text);
    let mut number = 1;
    while let Some(bytes) = left {
        let (line, others) = first_line(bytes);
        if is_end(line, others) {
            return Ok(None);
        }
        if !open_line(alloc, chain, line, plain)? {
            return Ok(Some(number));
        }
        left = others;
        number += 1;
    }
    Ok(None)
}

/// Whether this is no line, but stands behind the last line feed.
fn is_end(line: &[u8], others: Option<&[u8]>) -> bool
    ensures { result ≡ is_end line.now (lines_left others.entry) }
{
    line.is_empty() && others.is_none()
}

/// Adds a line without its digest and with a line feed, if the digest is right, and says whether it is.
#[tactic(auto, unfolding(crate::specs::Reading::has_seal))]
fn open_line(
    alloc: Global,
    chain: &mut Chain,
    line: &[u8],
    plain: &mut Vec<u8>,
) -> Result<bool, AllocError>
    ensures right { IfOk result (λ b. b ≡ has_seal chain.old line.now) }
    ensures chain { IfOk result (λ b. IsTrue b → chain.new ≡ behind chain.old (plain_part line.now)) }
    ensures text { IfOk result (λ b. IsTrue b → plain.new.items ≡ plain.old.items ++ with_line (plain_part line.now) []) }
{
    let (front, seal) = line.split_at(line.len().saturating_sub(SEAL));
    let next = chain.behind(front);
    if seal != next.seal(alloc)?.as_slice() {
        return Ok(false);
    }
    plain.extend_from_slice(front)?;
    plain.push(b'\n')?;
    *chain = next;
    Ok(true)
}

/// The lines of a text, each with a line feed and without what stands where a digest is to stand, if it ends with a quotation mark. Nothing
/// is checked.
pub fn without_digests(alloc: Global, text: &[u8]) -> Result<List<u8>, AllocError>
    ensures { IfOk result (λ l. l ≡ unquoted_lines (lines_in text.now)) }
{
    let mut plain = Vec::new(alloc);
    let mut left = Some(text);
    while let Some(bytes) = left {
        let (line, others) = first_line(bytes);
        add_unquoted(line, &mut plain)?;
        left = others;
    }
    Ok(List::from_vec(plain))
}

fn add_unquoted(line: &[u8], plain: &mut Vec<u8>) -> Result<(), AllocError>
    ensures { OnOk result (plain.new.items ≡ plain.old.items ++ unquoted line.now) }
{
    plain.extend_from_slice(unquoted_part(line))?;
    plain.push(b'\n')?;
    Ok(())
}

fn unquoted_part(line: &[u8]) -> &[u8]
    ensures { result.now ≡ unquoted_part line.now }
{
    if is_sealed(line) {
        return &line[..line.len().saturating_sub(SEAL)];
    }
    line
}
