//! Rows of tests about what is asked and answered over HTTP, and about the documents of sessions. Each line of standard input names a reader and has
//! what it reads, and is written with the reader's answer behind it; an empty line and one that begins with `#` are written alone. ` | ` stands
//! between the parts of what a reader reads.
//!
//! With a first argument that reader has the whole of standard input, and one line is written. The status is 2 where there is no such reader.
#![tactic(auto)]

mod answers;
mod asks;
mod books_rows;
mod fleet_pages;
mod job_rows;
mod numbers;
mod pages;
mod readers;
mod responses;
mod scrapes;
mod sessions;
mod sources;

use readers::said;
use std::alloc::{AllocError, Global};
use std::io::Read;
use std::process::ExitCode;
use std::{env, io, str};

/// The status where there is no such reader.
const NO_READER: u8 = 2;

fn main(rt: HostRuntime) -> io::Result<ExitCode> {
    let name = env::args(&rt)?.nth(1);
    let mut bytes = Vec::new(rt.alloc());
    rt.reader().read_to_end(&mut bytes)?;
    let name = name.as_ref().map(String::as_str);
    match written(rt.alloc(), name, bytes.as_slice())? {
        Some(text) => {
            println!(rt; "{text}")?;
            Ok(ExitCode::SUCCESS)
        }
        None => Ok(ExitCode::from(NO_READER)),
    }
}

/// What is written. None where there is no such reader.
fn written(alloc: Global, name: Option<&str>, bytes: &[u8]) -> Result<Option<String>, AllocError> {
    match name {
        Some(name) => said(alloc, name, bytes),
        None => Ok(Some(table(alloc, str::from_utf8(bytes).unwrap_or(""))?)),
    }
}

/// The rows with their answers.
fn table(alloc: Global, rows: &str) -> Result<String, AllocError> {
    let mut table = String::new(alloc);
    for row in rows.lines() {
        push_row(alloc, &mut table, row)?;
    }
    Ok(table)
}

fn push_row(alloc: Global, table: &mut String, row: &str) -> Result<(), AllocError> {
    if !table.is_empty() {
        table.push_str("\n")?;
    }
    table.push_str(row)?;
    if row.is_empty() || row.starts_with('#') {
        return Ok(());
    }
    table.push_str(" = ")?;
    push_answer(alloc, table, row)
}

fn push_answer(alloc: Global, table: &mut String, row: &str) -> Result<(), AllocError> {
    let (reader, text) = row.split_once(' ').unwrap_or((row, ""));
    match said(alloc, reader, text.as_bytes())? {
        Some(answer) => table.push_str(answer.as_str()),
        None => table.push_str("no reader"),
    }
}
