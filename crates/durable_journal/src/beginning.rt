//! The first line of a journal.
ghost use Rattle.std.specs.Prelude.{◌≡◌, IfOk, IfSome, option_and_then, option_map};
ghost use Rattle.json_values.specs.Texts.{json_of};
ghost use Rattle.replay_lines.specs.Configurations.{opened};
ghost use Rattle.serde_json.specs.View.{view};
ghost use Rattle.durable_journal.specs.Beginnings.{IsBegun, Opens, BeginsMarked, value_of};
ghost use Rattle.durable_journal.specs.Marks.{marked as with_mark};

use crate::device::Device;
use crate::marking::marked;
use crate::sealing::Sealing;
use json_pieces::write_value;
use json_values::parse;
use sealed_lines::Chain;
use serde_json::Value;
use std::alloc::{AllocError, Global};
use std::io;

/// The first line of a journal that is to begin. Its text never stands in memory as a whole: it is written in pieces.
#[derive(Drop)]
pub struct FirstLine {
    /// An object with the mark.
    value: Value,
}

/// A journal that has just begun.
#[derive(Drop)]
pub struct Begun<F> {
    /// The device that keeps it.
    pub file: F,
    /// The digest of its first line.
    pub chain: Chain,
    /// How many bytes that line has, with its digest and its line feed.
    pub bytes: u64,
}

impl FirstLine {
    /// That of the document of a configuration, as compact JSON with the mark of a journal. It opens what the document opens, which may be
    /// nothing; a document that is no object has no line.
    pub fn configured(alloc: Global, document: &[u8]) -> Result<Option<FirstLine>, AllocError>
        ensures opens { IfOk result (λ o. IfSome o (Opens (opened document.now))) }
        ensures begins { IfOk result (λ o. IfSome o BeginsMarked) }
        ensures given { IfOk result (λ o. option_map value_of o ≡ option_and_then with_mark (json_of document.now)) }
    {
        line_of_document(alloc, document)
    }

    /// Writes the line with its digest and its line feed behind what the device has, some 64 KiB at once, and has it keep that. After
    /// an `Err` the device is closed, and may have a beginning of it.
    pub fn begin<F: Device + Drop>(&self, alloc: Global, file: F) -> io::Result<Begun<F>>
        ensures form { IfOk result (IsBegun F.contents self.now file) }
        ensures kept { IfOk result (λ b. F.kept b.file ≡ F.contents b.file) }
    {
        let mut line = Sealing::new(alloc, file)?;
        write_value(alloc, &self.value, &mut line)?;
        line.end(alloc)
    }
}

fn line_of_document(alloc: Global, document: &[u8]) -> Result<Option<FirstLine>, AllocError>
    ensures { IfOk result (λ o. option_map value_of o ≡ option_and_then with_mark (json_of document.now)) }
{
    match parse(alloc, document)? {
        Some(value) => line_of(alloc, value),
        None => Ok(None),
    }
}

/// The line of an object with the mark.
pub(crate) fn line_of(alloc: Global, document: Value) -> Result<Option<FirstLine>, AllocError>
    ensures { IfOk result (λ o. option_map value_of o ≡ with_mark (view document)) }
{
    match marked(alloc, document)? {
        Some(value) => Ok(Some(FirstLine { value })),
        None => Ok(None),
    }
}
