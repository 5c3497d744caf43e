//! Runs and turns of an agent, its documents, and what it asks and is answered. Each line of standard input is a row: it names a reader and has
//! what it reads, and is written with the reader's answer behind it.
#![tactic(auto)]

mod documents;
mod exchanges;
mod lasts;
mod runs;
mod shared;
mod turns;

use documents::{head, list, memory, said};
use exchanges::{active, jobs, join, let_go, paths, posted, range, reports, saying, settings};
use lasts::{lasts, urls};
use runs::run;
use std::alloc::{AllocError, Global};
use std::io::{Read, Write};
use std::{io, str};
use turns::take_turns;

fn main(rt: HostRuntime) -> io::Result<()> {
    let mut rows = Vec::new(rt.alloc());
    rt.reader().read_to_end(&mut rows)?;
    for row in str::from_utf8(rows.as_slice()).unwrap_or("").lines() {
        let answer = answer_to(rt.alloc(), row)?;
        println!(rt; "{row} = {answer}")?;
    }
    Ok(())
}

fn answer_to(alloc: Global, row: &str) -> Result<String, AllocError> {
    let (reader, text) = row.split_once(' ').unwrap_or((row, ""));
    match reader {
        "run" => run(alloc, text),
        "said" => said(alloc, text),
        "list" => list(alloc, text),
        "head" => head(alloc, text),
        "memory" => memory(alloc, text),
        other => answer_of_exchange(alloc, other, text),
    }
}

/// The same of what is asked and answered.
fn answer_of_exchange(alloc: Global, reader: &str, text: &str) -> Result<String, AllocError> {
    match reader {
        "settings" => settings(alloc, text),
        "join" => join(alloc, text),
        "saying" => saying(alloc, text),
        "posted" => posted(alloc, text),
        "paths" => paths(alloc, text),
        "range" => range(alloc, text),
        "reports" => reports(alloc, text),
        "jobs" => jobs(alloc, text),
        "active" => active(alloc, text),
        "let_go" => let_go(alloc, text),
        "urls" => urls(alloc, text),
        "lasts" => lasts(alloc, text),
        "turns" => take_turns(alloc, text),
        _ => String::from_str(alloc, "no reader"),
    }
}
