//! What is posted.
use crate::parts::{first, large, number};
use etcd_requests::{
    Key, claim_body, forget_body, get_body, grant_body, lease_body, look_body, remove_body,
    switch_body, term_text, write_body,
};
use lists::Text;
use std::alloc::{AllocError, Global};

/// The body of a request.
pub(crate) fn posted(alloc: Global, reader: &str, text: &str) -> Result<String, AllocError> {
    match body(alloc, reader, text) {
        Ok(body) => Ok(body.into_string()),
        Err(error) => Err(error),
    }
}

fn body(alloc: Global, reader: &str, text: &str) -> Result<Text, AllocError> {
    let (part, rest) = first(text);
    match reader {
        "term" => term_text(alloc, part, rest),
        "grant" => grant_body(alloc, number(text).0),
        "keep" => lease_body(alloc, large(text).0),
        "get" => get_body(alloc, part, key_of(rest)),
        "claim" => claim(alloc, part, rest),
        "look" => look(alloc, part, rest),
        "write" => write(alloc, part, rest),
        "remove" => remove(alloc, part, rest),
        "switch" => switch(alloc, part, rest),
        "forget" => forget(alloc, part, rest),
        _ => Text::from_str(alloc, "no reader"),
    }
}

fn key_of(text: &str) -> Key {
    match text {
        "leader" => Key::Leader,
        "epoch" => Key::Epoch,
        _ => {
            let (epoch, rest) = number(text);
            Key::Block(epoch, number(rest).0)
        }
    }
}

/// As `PREFIX | TERM | LEASE`.
fn claim(alloc: Global, prefix: &str, text: &str) -> Result<Text, AllocError> {
    let (term, rest) = first(text);
    claim_body(alloc, prefix, term, large(rest).0)
}

/// As `PREFIX | EPOCH | NUMBER`.
fn look(alloc: Global, prefix: &str, text: &str) -> Result<Text, AllocError> {
    let (epoch, rest) = number(text);
    look_body(alloc, prefix, epoch, number(rest).0)
}

/// As `PREFIX | TERM | GOING | EPOCH | NUMBER | BLOCK`.
fn write(alloc: Global, prefix: &str, text: &str) -> Result<Text, AllocError> {
    let (term, rest) = first(text);
    let (going, rest) = number(rest);
    let (epoch, rest) = number(rest);
    let (place, block) = number(rest);
    write_body(alloc, prefix, term, going, epoch, place, block.as_bytes())
}

/// As `PREFIX | TERM | GOING | EPOCH | NUMBER | CREATED`.
fn remove(alloc: Global, prefix: &str, text: &str) -> Result<Text, AllocError> {
    let (term, rest) = first(text);
    let (going, rest) = number(rest);
    let (epoch, rest) = number(rest);
    let (place, rest) = number(rest);
    remove_body(alloc, prefix, term, going, epoch, place, large(rest).0)
}

/// As `PREFIX | TERM | GOING`.
fn switch(alloc: Global, prefix: &str, text: &str) -> Result<Text, AllocError> {
    let (term, rest) = first(text);
    switch_body(alloc, prefix, term, number(rest).0)
}

/// As `PREFIX | TERM | EPOCH`.
fn forget(alloc: Global, prefix: &str, text: &str) -> Result<Text, AllocError> {
    let (term, rest) = first(text);
    forget_body(alloc, prefix, term, number(rest).0)
}
