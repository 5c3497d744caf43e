//! The paths that the allocator is asked for after the rounds.
ghost use Rattle.std.specs.Prelude.{◌≡◌, ◌++◌, OnOk, Ok};
ghost use Rattle.session_command.specs.Answers.{answer_line};

use http_get::{FetchFault, Get, Reply, Scrape};
use lists::{Plain, Text};
use std::alloc::{AllocError, Global};

/// Asks for each path at an address, and gives the lines of what came.
pub(crate) fn ask_all<S: Scrape>(
    alloc: Global,
    device: &mut S,
    address: &str,
    paths: &[Text],
) -> Result<Vec<u8>, AllocError> {
    let mut text = Vec::new(alloc);
    for path in paths {
        ask(alloc, device, address, path, &mut text)?;
    }
    Ok(text)
}

/// Asks for a path, and adds the line of what came.
fn ask<S: Scrape>(
    alloc: Global,
    device: &mut S,
    address: &str,
    path: &Text,
    text: &mut Vec<u8>,
) -> Result<(), AllocError> {
    let get = get_of(alloc, address, path)?;
    let fetched = device.fetch(&get);
    let added = add_answer(alloc, &fetched, text);
    drop((get, fetched));
    added
}

fn get_of(alloc: Global, address: &str, path: &Text) -> Result<Get, AllocError> {
    let address = Text::from_str(alloc, address)?;
    let path = path.copy()?;
    Ok(Get { address, path })
}

/// Adds the line of what came of a fetch: the answer's status and body, or the fault.
pub fn add_answer(
    alloc: Global,
    fetched: &Result<Reply, FetchFault>,
    text: &mut Vec<u8>,
) -> Result<(), AllocError>
    ensures { OnOk result (text.new.items ≡ text.old.items ++ answer_line fetched.now) }
{
    match fetched {
        Ok(reply) => add_reply(alloc, reply, text),
        Err(FetchFault::Device) => text.extend_from_slice(b"Device\n"),
        Err(FetchFault::TooLong) => text.extend_from_slice(b"TooLong\n"),
        Err(FetchFault::Memory) => Err(AllocError),
    }
}

fn add_reply(alloc: Global, reply: &Reply, text: &mut Vec<u8>) -> Result<(), AllocError>
    ensures { OnOk result (text.new.items ≡ text.old.items ++ answer_line (Ok reply.now)) }
{
    let status = reply.status;
    let status = format!(in alloc; "{status} ")?;
    text.extend_from_slice(status.as_bytes())?;
    text.extend_from_slice(reply.body.as_slice())?;
    text.push(b'\n')?;
    Ok(())
}
