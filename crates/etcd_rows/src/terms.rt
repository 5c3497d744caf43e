//! What an instance knows while it leads, and what it reads. In a block a comma stands for a line feed.
use crate::parts::{first, large, number};
use etcd_answers::{Answer, read_answer};
use etcd_terms::{Looked, Reading, Seat, Wish};
use lists::List;
use std::alloc::{AllocError, Global};

/// What is read by the answers to looks, as `STATUS BODY | STATUS BODY ..`.
pub(crate) fn read(alloc: Global, text: &str) -> Result<String, AllocError> {
    let mut reading = Reading::new(alloc, 0);
    match read_all(alloc, &mut reading, text) {
        Ok(looked) => shown(alloc, &reading, looked),
        Err(error) => {
            drop(reading);
            Err(error)
        }
    }
}

fn read_all(alloc: Global, reading: &mut Reading, text: &str) -> Result<Looked, AllocError> {
    let mut looked = Looked::Unknown;
    for part in text.split(" | ") {
        looked = read_one(alloc, reading, part)?;
    }
    Ok(looked)
}

fn read_one(alloc: Global, reading: &mut Reading, text: &str) -> Result<Looked, AllocError> {
    match answer_of(alloc, text) {
        Ok(answer) => reading.hear(alloc, &answer),
        Err(error) => Err(error),
    }
}

/// An answer, as `STATUS BODY`.
fn answer_of(alloc: Global, text: &str) -> Result<Answer, AllocError> {
    let (status, body) = text.split_once(' ').unwrap_or((text, ""));
    read_answer(alloc, status.parse().unwrap_or(0), body.as_bytes())
}

fn shown(alloc: Global, reading: &Reading, looked: Looked) -> Result<String, AllocError> {
    let mut text = format!(in alloc;
        "{}: epoch {}, {} blocks, {} whole, torn {}: ",
        word_of(looked),
        reading.epoch,
        reading.count,
        reading.whole,
        reading.torn
    )?;
    push_bytes(&mut text, reading.lines())?;
    Ok(text)
}

fn word_of(looked: Looked) -> &'static str {
    match looked {
        Looked::Unknown => "unknown",
        Looked::Anew => "anew",
        Looked::More => "more",
        Looked::Whole => "whole",
    }
}

fn push_bytes(text: &mut String, bytes: &[u8]) -> Result<(), AllocError> {
    for byte in bytes {
        text.push(if *byte == b'\n' { ',' } else { *byte as char })?;
    }
    Ok(())
}

/// What a seat comes to, as `TERM | EPOCH | NEXT | TORN | TURN | TURN ..`.
pub(crate) fn seat(alloc: Global, text: &str) -> Result<String, AllocError> {
    let (term, rest) = first(text);
    let (going, rest) = number(rest);
    let (next, rest) = number(rest);
    let (torn, rest) = large(rest);
    let mut seat = Seat::new(going, next, torn);
    match turn_all(alloc, term, &mut seat, rest) {
        Ok(()) => said(alloc, &seat),
        Err(error) => {
            drop(seat);
            Err(error)
        }
    }
}

fn turn_all(alloc: Global, term: &str, seat: &mut Seat, turns: &str) -> Result<(), AllocError> {
    for turn in turns.split(" | ") {
        turn_one(alloc, term, seat, turn)?;
    }
    Ok(())
}

fn turn_one(alloc: Global, term: &str, seat: &mut Seat, turn: &str) -> Result<(), AllocError> {
    let (word, more) = turn.split_once(' ').unwrap_or((turn, ""));
    match word {
        "hear" => hear(alloc, term, seat, more),
        "end" => {
            seat.end();
            Ok(())
        }
        _ => {
            let wish = wish_of(alloc, word, more)?;
            seat.wish(wish);
            Ok(())
        }
    }
}

fn hear(alloc: Global, term: &str, seat: &mut Seat, text: &str) -> Result<(), AllocError> {
    match answer_of(alloc, text) {
        Ok(answer) => seat.hear(alloc, term, &answer),
        Err(error) => Err(error),
    }
}

fn wish_of(alloc: Global, word: &str, more: &str) -> Result<Wish, AllocError> {
    match word {
        "append" => Ok(Wish::Append(block_of(alloc, more)?)),
        "fill" => Ok(Wish::Fill(block_of(alloc, more)?)),
        "cut" => Ok(Wish::Cut),
        "look" => Ok(Wish::Look),
        "clear" => Ok(Wish::Clear),
        "switch" => Ok(Wish::Switch),
        _ => Ok(Wish::Forget(more.parse().unwrap_or(0))),
    }
}

fn block_of(alloc: Global, text: &str) -> Result<List<u8>, AllocError> {
    let mut bytes = Vec::new(alloc);
    for byte in text.as_bytes() {
        bytes.push(if *byte == b',' { b'\n' } else { *byte })?;
    }
    Ok(List::from_vec(bytes))
}

fn said(alloc: Global, seat: &Seat) -> Result<String, AllocError> {
    let begins = if seat.is_over { "is over" } else { "leads" };
    let asks = asked(alloc, &seat.asked)?;
    format!(in alloc;
        "{begins} epoch {} next {} torn {} ahead {:?} asks {asks}",
        seat.going, seat.next, seat.torn, seat.ahead
    )
}

fn asked(alloc: Global, wish: &Option<Wish>) -> Result<String, AllocError> {
    let word = match wish {
        None => "nothing",
        Some(Wish::Append(_)) => "Append",
        Some(Wish::Cut) => "Cut",
        Some(Wish::Look) => "Look",
        Some(Wish::Clear) => "Clear",
        Some(Wish::Fill(_)) => "Fill",
        Some(Wish::Switch) => "Switch",
        Some(Wish::Forget(epoch)) => return format!(in alloc; "Forget({epoch})"),
    };
    String::from_str(alloc, word)
}
