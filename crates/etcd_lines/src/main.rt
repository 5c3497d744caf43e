//! An instance that keeps lines in etcd, to try a journal there from outside (`scripts/try_etcd.py`): it stands by while another leads, then leads, and keeps
//! each line of standard input.
//!
//! usage: etcd_lines HOST:PORT[,HOST:PORT ..] PREFIX SECONDS ADVERTISE
#![tactic(auto)]

mod instance;
mod leading;
mod standing_by;
mod words;

use instance::{Ending, Outer, run};
use scrape_client::start_lookups;
use std::alloc::AllocGlobal;
use std::process::ExitCode;
use std::{env, io};
use words::{Words, read_words};

fn main(rt: HostRuntime) -> io::Result<ExitCode> {
    let mut given = Vec::new(rt.alloc());
    for word in env::args(&rt)?.skip(1) {
        given.push(word)?;
    }
    match read_words(rt.alloc(), given.as_slice())? {
        Some(words) => {
            let lookups = start_lookups(&rt)?;
            let outer = Outer {
                rt,
                lookups: &lookups,
                words: &words,
            };
            match run(&outer)? {
                Ending::Quit => Ok(ExitCode::SUCCESS),
                Ending::Deposed => Ok(ExitCode::from(4)),
            }
        }
        None => {
            eprintln!(rt; "usage: etcd_lines HOST:PORT[,HOST:PORT ..] PREFIX SECONDS ADVERTISE")?;
            Ok(ExitCode::from(2))
        }
    }
}
