//! The keys of a journal.
ghost use Rattle.std.specs.Prelude.{◌≡◌, ◌+◌, ◌<◌, [], ◌∷◌, ◌++◌, IfOk, OnOk, string_bytes};
ghost use Rattle.etcd_requests.specs.Keys.{key_name, key_text, blocks_end, blocks_name, last_digits};

use std::alloc::{AllocError, Global};

/// How many digits an epoch and a block's number have.
const DIGITS: u32 = 10;

/// A key of a journal.
#[derive(Clone, Copy, PartialEq, Eq)]
pub enum Key {
    /// Who leads.
    Leader,
    /// Which epoch goes on.
    Epoch,
    /// The block of an epoch that has a number, from 0.
    Block(u32, u32),
}

/// The key's text.
pub(crate) fn key_text(alloc: Global, prefix: &str, key: Key) -> Result<String, AllocError>
    ensures { IfOk result (λ s. string_bytes s ≡ key_text prefix.now key) }
{
    let mut text = String::new(alloc);
    text.push_str("/")?;
    text.push_str(prefix)?;
    push_name(&mut text, key)?;
    Ok(text)
}

fn push_name(text: &mut String, key: Key) -> Result<(), AllocError>
    ensures { OnOk result (string_bytes text.new ≡ string_bytes text.old ++ key_name key) }
{
    match key {
        Key::Leader => text.push_str("/leader"),
        Key::Epoch => text.push_str("/epoch"),
        Key::Block(epoch, number) => {
            push_epoch(text, epoch)?;
            text.push_str("/")?;
            push_digits(text, DIGITS, number)
        }
    }
}

/// The first text behind the keys of all blocks of an epoch.
pub(crate) fn blocks_end(alloc: Global, prefix: &str, epoch: u32) -> Result<String, AllocError>
    ensures { IfOk result (λ s. string_bytes s ≡ blocks_end prefix.now epoch) }
{
    let mut text = String::new(alloc);
    text.push_str("/")?;
    text.push_str(prefix)?;
    push_epoch(&mut text, epoch)?;
    text.push_str("0")?;
    Ok(text)
}

fn push_epoch(text: &mut String, epoch: u32) -> Result<(), AllocError>
    ensures { OnOk result (string_bytes text.new ≡ string_bytes text.old ++ blocks_name epoch) }
{
    text.push_str("/j/")?;
    push_digits(text, DIGITS, epoch)
}

/// Adds the last so many digits of a number.
fn push_digits(text: &mut String, count: u32, number: u32) -> Result<(), AllocError>
    ensures { OnOk result (string_bytes text.new ≡ string_bytes text.old ++ last_digits count number) }
{
    if count == 0 {
        return Ok(());
    }
    push_digits(text, count - 1, number / 10)?;
    push_digit(text, number % 10)
}

fn push_digit(text: &mut String, digit: u32) -> Result<(), AllocError>
    requires { digit < 10 }
    ensures { OnOk result (string_bytes text.new ≡ string_bytes text.old ++ (48 + digit) ∷ []) }
{
    text.push((b'0' + digit as u8) as char)
}
