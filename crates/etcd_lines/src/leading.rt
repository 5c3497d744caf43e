//! An instance that leads.
use crate::instance::{Ending, Outer};
use durable_journal::append;
use etcd_client::EtcdClient;
use etcd_journal::{EtcdJournal, Leads, Opened};
use std::alloc::AllocGlobal;
use std::io;
use std::io::Input;
use std::net::{Net, TcpListener, TcpStream};
use std::random::RandomSource;
use std::sync::Wait;
use std::thread::Threads;
use std::time::Clock;

/// Keeps the lines of standard input, until there are no more or it is deposed. A line `!begin TEXT` begins another epoch with the text, `!ours` asks whether
/// this instance still leads, and `!long COUNT` keeps a line of so many bytes.
pub(crate) fn lead<R>(outer: &Outer<'_, R>, opened: Opened<EtcdClient<R>>) -> io::Result<Ending>
where
    R: Wait
        + Threads
        + Clock
        + Net<Listener = TcpListener, Stream = TcpStream>
        + RandomSource
        + Input
        + Print
        + AllocGlobal
        + Send
        + Copy
        + Drop
        + 'static,
{
    let mut journal = opened.journal;
    let lines = opened.lines;
    println!(outer.rt;
        "leads epoch {} of {} blocks, {} bytes",
        journal.seat.going,
        journal.seat.next,
        lines.len()
    )?;
    drop(lines);
    if journal.seat.going == 0 {
        journal.begin(b"first\n")?;
    }
    keep_all(outer, &mut journal)
}

fn keep_all<R>(outer: &Outer<'_, R>, journal: &mut EtcdJournal<EtcdClient<R>>) -> io::Result<Ending>
where
    R: Wait
        + Threads
        + Clock
        + Net<Listener = TcpListener, Stream = TcpStream>
        + RandomSource
        + Input
        + Print
        + AllocGlobal
        + Send
        + Copy
        + Drop
        + 'static,
{
    for _ in 0..u64::MAX {
        let mut line = String::new(outer.rt.alloc());
        if outer.rt.read_line(&mut line)? == 0 {
            return Ok(Ending::Quit);
        }
        if !keep(outer, journal, line.as_str())? {
            return Ok(Ending::Deposed);
        }
    }
    Ok(Ending::Quit)
}

/// Does what a line says, and tells whether this instance still leads.
fn keep<R>(
    outer: &Outer<'_, R>,
    journal: &mut EtcdJournal<EtcdClient<R>>,
    line: &str,
) -> io::Result<bool>
where
    R: Wait
        + Threads
        + Clock
        + Net<Listener = TcpListener, Stream = TcpStream>
        + RandomSource
        + Input
        + Print
        + AllocGlobal
        + Send
        + Copy
        + Drop
        + 'static,
{
    let said = line.trim_end();
    if let Some(text) = line.strip_prefix("!begin ") {
        let begun = journal.begin(text.as_bytes()).is_ok();
        return told(outer, begun, said);
    }
    if said == "!ours" {
        let ours = journal.is_ours()?;
        return told(outer, ours, said);
    }
    if let Some(count) = said.strip_prefix("!long ") {
        let long = long_line(outer, count.parse().unwrap_or(0))?;
        let kept = append(journal, long.as_slice()).is_ok();
        return told(outer, kept, said);
    }
    let kept = append(journal, line.as_bytes()).is_ok();
    told(outer, kept, said)
}

fn told<R>(outer: &Outer<'_, R>, kept: bool, said: &str) -> io::Result<bool>
where
    R: Wait
        + Threads
        + Clock
        + Net<Listener = TcpListener, Stream = TcpStream>
        + RandomSource
        + Input
        + Print
        + AllocGlobal
        + Send
        + Copy
        + Drop
        + 'static,
{
    let word = if kept { "kept" } else { "lost" };
    println!(outer.rt; "{word} {said}")?;
    Ok(kept)
}

fn long_line<R>(outer: &Outer<'_, R>, count: usize) -> io::Result<Vec<u8>>
where
    R: Wait
        + Threads
        + Clock
        + Net<Listener = TcpListener, Stream = TcpStream>
        + RandomSource
        + Input
        + Print
        + AllocGlobal
        + Send
        + Copy
        + Drop
        + 'static,
{
    let mut line = vec![in outer.rt.alloc(); b'x'; count]?;
    line.push(b'\n')?;
    Ok(line)
}
