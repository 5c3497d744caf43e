//! Rows of tests about a journal in etcd: what is posted, and what answers say. Each line of standard input names a reader and has what it reads, with ` | ` between
//! the parts, and is written with the reader's answer behind it; an empty line and one that begins with `#` are written alone.
#![tactic(auto)]

mod answers;
mod parts;
mod requests;
mod terms;

use answers::{granted, lease, told, verdict};
use requests::posted;
use std::alloc::{AllocError, Global};
use std::io;
use std::io::Read;
use terms::{read, seat};

fn main(rt: HostRuntime) -> io::Result<()> {
    let mut rows = String::new(rt.alloc());
    rt.reader().read_to_string(&mut rows)?;
    let table = table(rt.alloc(), rows.as_str())?;
    println!(rt; "{table}")
}

/// The rows with their answers.
fn table(alloc: Global, rows: &str) -> Result<String, AllocError> {
    let mut table = String::new(alloc);
    for row in rows.lines() {
        push_row(alloc, &mut table, row)?;
    }
    Ok(table)
}

fn push_row(alloc: Global, table: &mut String, row: &str) -> Result<(), AllocError> {
    if !table.is_empty() {
        table.push_str("\n")?;
    }
    table.push_str(row)?;
    if row.is_empty() || row.starts_with('#') {
        return Ok(());
    }
    table.push_str(" = ")?;
    let answer = said(alloc, row)?;
    table.push_str(answer.as_str())
}

fn said(alloc: Global, row: &str) -> Result<String, AllocError> {
    let (reader, text) = row.split_once(' ').unwrap_or((row, ""));
    match reader {
        "granted" => granted(alloc, text),
        "lease" => lease(alloc, text),
        "told" => told(alloc, text),
        "verdict" => verdict(alloc, text),
        "read" => read(alloc, text),
        "seat" => seat(alloc, text),
        _ => posted(alloc, reader, text),
    }
}
