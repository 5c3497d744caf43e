//! What an instance reads of the epoch that goes on.
ghost use Rattle.std.specs.Prelude.{◌≡◌, ◌++◌, fold, take, IfOk, OnOk};
ghost use Rattle.std.specs.Option.{option_map};
ghost use Rattle.journal_blocks.specs.Blocks.{ends_line};
ghost use Rattle.etcd_terms.specs.Readings.{absorbed, at_epoch, begun, epoch_said, is_last, is_shaped, leader_in, looked_at, number_from, number_said, read, seat_of, still, with_digit};

use crate::asking::up;
use crate::seat::Seat;
use etcd_answers::{Answer, Found};
use lists::List;
use std::alloc::{AllocError, Global};

/// What was read of an epoch. Its blocks are read one after the other, from its first on.
#[derive(Drop)]
pub struct Reading {
    /// 0 before the first.
    pub epoch: u32,
    /// How many blocks were read.
    pub count: u32,
    /// The revision at which the last of them was created, or 0.
    pub last: u64,
    /// How many there are up to the last that ends a line.
    pub whole: u32,
    /// How many bytes those have.
    pub length: usize,
    /// The revision at which the first behind them was created, or 0.
    pub torn: u64,
    /// The bytes of all of them.
    pub text: List<u8>,
}

/// What a look came to.
#[derive(Clone, Copy, PartialEq, Eq)]
pub enum Looked {
    /// It is not known, and asked again.
    Unknown,
    /// Another epoch goes on, or a torn end was cut: it is read anew.
    Anew,
    /// There were more blocks.
    More,
    /// There are no more.
    Whole,
}

impl Reading {
    /// Nothing is read yet.
    pub fn new(alloc: Global, epoch: u32) -> Reading
        ensures { result ≡ begun epoch }
    {
        Reading {
            epoch,
            count: 0,
            last: 0,
            whole: 0,
            length: 0,
            torn: 0,
            text: List::new(alloc),
        }
    }

    /// The answer came to a look at the blocks behind those that were read. Where there is no memory, it is to be read anew.
    pub fn hear(&mut self, alloc: Global, answer: &Answer) -> Result<Looked, AllocError>
        ensures read { OnOk result (self.new ≡ read self.old answer.now) }
        ensures looked { IfOk result (λ l. l ≡ looked_at self.old answer.now) }
    {
        let looked = self.looked_at(answer);
        match looked {
            Looked::Unknown | Looked::Whole => {}
            Looked::Anew => {
                let epoch = epoch_said(answer.found(1)).unwrap_or(0);
                self.begin(alloc, epoch);
            }
            Looked::More => self.absorb_all(answer.found(2))?,
        }
        Ok(looked)
    }

    fn begin(&mut self, alloc: Global, epoch: u32)
        ensures { self.new ≡ begun epoch }
    {
        drop(std::mem::replace(self, Reading::new(alloc, epoch)));
    }

    fn looked_at(&self, answer: &Answer) -> Looked
        ensures { result ≡ looked_at self.now answer.now }
    {
        match answer {
            Answer::Unknown => Looked::Unknown,
            Answer::Told(told) => {
                if told.succeeded && is_shaped(self.count, told.responses.len()) {
                    self.at_epoch(answer, epoch_said(answer.found(1)))
                } else {
                    Looked::Unknown
                }
            }
        }
    }

    fn at_epoch(&self, answer: &Answer, epoch: Option<u32>) -> Looked
        ensures { result ≡ at_epoch self.now answer.now epoch }
    {
        match epoch {
            Some(epoch) => {
                if epoch != self.epoch || !self.still(answer.found(3)) {
                    Looked::Anew
                } else if answer.found(2).is_empty() {
                    Looked::Whole
                } else {
                    Looked::More
                }
            }
            None => Looked::Unknown,
        }
    }

    /// Whether the last block that was read is there as it was read.
    fn still(&self, found: &[Found]) -> bool
        ensures { result ≡ still self.now found.now }
    {
        self.count == 0 || is_last(self.last, found)
    }

    fn absorb_all(&mut self, found: &[Found]) -> Result<(), AllocError>
        ensures { OnOk result (self.new ≡ fold absorbed self.old found.now) }
    {
        match found {
            [] => Ok(()),
            [first, more @ ..] => {
                self.absorb(first)?;
                self.absorb_all(more)
            }
        }
    }

    /// One more block.
    fn absorb(&mut self, found: &Found) -> Result<(), AllocError>
        ensures { OnOk result (self.new ≡ absorbed self.old found.now) }
    {
        push_all(&mut self.text, found.value.as_slice())?;
        self.count = up(self.count);
        self.last = found.created;
        if ends_line(found.value.as_slice()) {
            self.whole = self.count;
            self.length = self.text.len();
            self.torn = 0;
        } else if self.torn == 0 {
            self.torn = found.created;
        }
        Ok(())
    }

    /// The seat of whoever leads and has read all.
    pub fn seat(&self) -> Seat
        ensures { result ≡ seat_of self.now }
    {
        Seat::new(self.epoch, self.whole, self.torn)
    }

    /// The whole lines.
    pub fn lines(&self) -> &[u8]
        ensures { result.now ≡ take self.now.length self.now.text }
    {
        let text = self.text.as_slice();
        &text[..self.length.min(text.len())]
    }
}

/// Who leads, by an answer to a look. None where nobody does, or it is not known.
pub fn leader_in(answer: &Answer) -> Option<&[u8]>
    ensures { option_map (λ b. b.now) result ≡ leader_in answer.now }
{
    match answer.found(0) {
        [leader] => Some(leader.value.as_slice()),
        _ => None,
    }
}

fn push_all(text: &mut List<u8>, bytes: &[u8]) -> Result<(), AllocError>
    ensures { OnOk result (text.new ≡ text.old ++ bytes.now) }
{
    for byte in bytes {
        text.push(*byte)?;
    }
    Ok(())
}

/// Whether the bytes end with a line feed.
fn ends_line(bytes: &[u8]) -> bool
    ensures { result ≡ ends_line bytes.now }
{
    match bytes.last() {
        Some(byte) => *byte == b'\n',
        None => false,
    }
}

/// Whether a look behind so many blocks has so many answers.
fn is_shaped(count: u32, responses: usize) -> bool
    ensures { result ≡ is_shaped count responses }
{
    if count == 0 {
        responses == 3
    } else {
        responses == 4
    }
}

/// Whether the key that was found was created at this revision.
fn is_last(last: u64, found: &[Found]) -> bool
    ensures { result ≡ is_last last found.now }
{
    match found {
        [only] => only.created == last,
        _ => false,
    }
}

/// The epoch that goes on, 0 where there is none yet.
fn epoch_said(found: &[Found]) -> Option<u32>
    ensures { result ≡ epoch_said found.now }
{
    match found {
        [] => Some(0),
        [epoch] => number_said(epoch.value.as_slice()),
        _ => None,
    }
}

/// The number that its digits say.
fn number_said(digits: &[u8]) -> Option<u32>
    ensures { result ≡ number_said digits.now }
{
    if digits.is_empty() {
        return None;
    }
    number_from(0, digits)
}

fn number_from(number: u32, digits: &[u8]) -> Option<u32>
    ensures { result ≡ number_from number digits.now }
{
    match digits {
        [] => Some(number),
        [digit, more @ ..] => match with_digit(number, *digit) {
            Some(number) => number_from(number, more),
            None => None,
        },
    }
}

fn with_digit(number: u32, digit: u8) -> Option<u32>
    ensures { result ≡ with_digit number digit }
{
    if digit < b'0' || digit > b'9' {
        return None;
    }
    let more = number as u64 * 10 + (digit - b'0') as u64;
    if more > u32::MAX as u64 {
        return None;
    }
    Some(more as u32)
}
