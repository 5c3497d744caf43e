//! Words and documents, read by the public readers. Each line of standard input is a row: it names a reader and has what it reads, and is written with the
//! reader's answer behind it. With an argument, which names a reader, standard input is one input of it, and its answer is written alone; so an outside
//! fuzzer drives it. The status is 0, and 2 where there is no such reader.
#![tactic(auto)]

mod answers;
mod discovery;
mod documents;
mod labels;
mod limits;
mod pages;
mod reach;
mod rules;
mod service;
mod values;
mod words;

use answers::answer_to;
use std::alloc::{AllocError, Global};
use std::io::{Read, Write};
use std::process::ExitCode;
use std::{env, io, str};
use values::spelled_out;

/// The status where there is no such reader.
const NO_READER: u8 = 2;

fn main(rt: HostRuntime) -> io::Result<ExitCode> {
    let name = env::args(&rt)?.nth(1);
    let mut input = Vec::new(rt.alloc());
    rt.reader().read_to_end(&mut input)?;
    match &name {
        Some(name) => match answer_to(rt.alloc(), name.as_str(), input.as_slice())? {
            Some(line) => {
                println!(rt; "{line}")?;
                Ok(ExitCode::SUCCESS)
            }
            None => Ok(ExitCode::from(NO_READER)),
        },
        None => {
            let table = table_of(rt.alloc(), str::from_utf8(input.as_slice()).unwrap_or(""))?;
            print!(rt; "{table}")?;
            Ok(ExitCode::SUCCESS)
        }
    }
}

/// Each row with its answer.
fn table_of(alloc: Global, rows: &str) -> Result<String, AllocError> {
    let mut table = String::new(alloc);
    for row in rows.lines() {
        add_row(alloc, &mut table, row)?;
    }
    Ok(table)
}

fn add_row(alloc: Global, table: &mut String, row: &str) -> Result<(), AllocError> {
    let (reader, text) = row.split_once(' ').unwrap_or((row, ""));
    table.push_str(row)?;
    table.push_str(" = ")?;
    match reader {
        "spelled" => add_spelled(alloc, table, text)?,
        _ => add_answer(alloc, table, reader, text)?,
    }
    table.push_str("\n")
}

/// The answer to a row whose text is spelled out: it names its reader too.
fn add_spelled(alloc: Global, table: &mut String, text: &str) -> Result<(), AllocError> {
    let (reader, text) = text.split_once(' ').unwrap_or((text, ""));
    match spelled_out(alloc, text)? {
        Some(text) => add_answer(alloc, table, reader, text.as_str()),
        None => table.push_str("no text"),
    }
}

fn add_answer(
    alloc: Global,
    table: &mut String,
    reader: &str,
    text: &str,
) -> Result<(), AllocError> {
    match answer_to(alloc, reader, text.as_bytes())? {
        Some(answer) => table.push_str(answer.as_str()),
        None => table.push_str("no reader"),
    }
}
