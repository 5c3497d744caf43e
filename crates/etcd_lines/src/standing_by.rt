//! An instance that stands by.
use crate::instance::Outer;
use etcd_client::Watch;
use etcd_terms::{Looked, Reading};
use etcd_turns::look;
use std::alloc::AllocGlobal;
use std::io::Input;
use std::net::{Net, TcpListener, TcpStream};
use std::random::RandomSource;
use std::sync::{Arc, Wait};
use std::thread::Threads;
use std::time::{Clock, Duration};
use std::{io, thread};

/// How long is waited between two looks, in milliseconds.
const PAUSE: u64 = 200;

/// Reads along until nobody leads.
pub(crate) fn stand_by<R>(outer: &Outer<'_, R>) -> io::Result<()>
where
    R: Wait
        + Threads
        + Clock
        + Net<Listener = TcpListener, Stream = TcpStream>
        + RandomSource
        + Input
        + Print
        + AllocGlobal
        + Send
        + Copy
        + Drop
        + 'static,
{
    let watch = Arc::new(outer.rt.alloc(), Watch::new())?;
    let mut client = outer.client(&watch)?;
    let mut reading = Reading::new(outer.rt.alloc(), 0);
    let mut has_told = false;
    for _ in 0..u64::MAX {
        let sight = look(
            outer.rt.alloc(),
            outer.words.prefix.as_str(),
            &mut client,
            &mut reading,
        )?;
        if sight.looked != Looked::Unknown && sight.leader.is_none() {
            return Ok(());
        }
        if sight.looked == Looked::Whole && !has_told {
            has_told = true;
            println!(outer.rt; "stands by, {} blocks", reading.count)?;
        }
        if sight.looked != Looked::More {
            thread::sleep(&outer.rt, Duration::from_millis(PAUSE));
        }
    }
    Ok(())
}
