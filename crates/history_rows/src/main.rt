//! Rows of tests about events, histories and allocators. Each line of standard input names a reader and has what it reads, and is written with the
//! reader's answer behind it; an empty line and one that begins with `#` are written alone.
//!
//! These readers speak of one allocator, from row to row:
//!
//! - `open JOBS` begins it, `renew JOBS` renews it. A job is its name, its limit and its sources, as in `a 2 1, b 0 3`. `renew_many COUNT` renews it
//!   under so many jobs of one source.
//! - `apply EVENT` and `reallocate` are answered. `join_many COUNT` lets collectors join until there are so many.
//! - `outline` says what it knows, `sizes` how much, and `instance` what its next plan is for.
//! - `write` is its history. `changed PART => OTHER` says whether its history is read with that part changed, and after ` and ` another one;
//!   after `read_changed` the allocator is the one that is read.
//! - `twin` reads a second allocator from the history of the first. Each answer is then that of both, or those of each. `compare` compares them.
//!
//! With a first argument that reader has the whole of standard input, and one line is written. The status is 2 where there is no such reader.
#![tactic(auto)]

mod jobs;
mod machine;
mod outline;
mod readers;

use machine::{Slot, stepped};
use readers::said;
use std::alloc::{AllocError, Global};
use std::io::Read;
use std::process::ExitCode;
use std::{env, io, str};

/// The status where there is no such reader.
const NO_READER: u8 = 2;

fn main(rt: HostRuntime) -> io::Result<ExitCode> {
    let name = env::args(&rt)?.nth(1);
    let mut bytes = Vec::new(rt.alloc());
    rt.reader().read_to_end(&mut bytes)?;
    let name = name.as_ref().map(String::as_str);
    match written(rt.alloc(), name, bytes.as_slice())? {
        Some(text) => {
            println!(rt; "{text}")?;
            Ok(ExitCode::SUCCESS)
        }
        None => Ok(ExitCode::from(NO_READER)),
    }
}

/// What is written. None where there is no such reader.
fn written(alloc: Global, name: Option<&str>, bytes: &[u8]) -> Result<Option<String>, AllocError> {
    match name {
        Some(name) => said(alloc, name, bytes),
        None => Ok(Some(table(alloc, str::from_utf8(bytes).unwrap_or(""))?)),
    }
}

/// The rows with their answers.
fn table(alloc: Global, rows: &str) -> Result<String, AllocError> {
    let mut slot = None;
    let mut twin = None;
    let table = filled(alloc, &mut slot, &mut twin, rows);
    drop((slot, twin));
    table
}

fn filled(
    alloc: Global,
    slot: &mut Slot,
    twin: &mut Slot,
    rows: &str,
) -> Result<String, AllocError> {
    let mut table = String::new(alloc);
    for row in rows.lines() {
        push_row(&mut table, row)?;
        if is_asked(row) {
            push_answer(&mut table, answer_to(alloc, slot, twin, row))?;
        }
    }
    Ok(table)
}

fn push_row(table: &mut String, row: &str) -> Result<(), AllocError> {
    if !table.is_empty() {
        table.push_str("\n")?;
    }
    table.push_str(row)
}

fn is_asked(row: &str) -> bool {
    !row.is_empty() && !row.starts_with('#')
}

fn push_answer(table: &mut String, answer: Result<String, AllocError>) -> Result<(), AllocError> {
    match answer {
        Ok(answer) => {
            table.push_str(" = ")?;
            table.push_str(answer.as_str())
        }
        Err(error) => Err(error),
    }
}

fn answer_to(
    alloc: Global,
    slot: &mut Slot,
    twin: &mut Slot,
    row: &str,
) -> Result<String, AllocError> {
    let (reader, text) = row.split_once(' ').unwrap_or((row, ""));
    match said(alloc, reader, text.as_bytes()) {
        Ok(Some(answer)) => Ok(answer),
        Ok(None) => stepped(alloc, slot, twin, reader, text),
        Err(error) => Err(error),
    }
}
