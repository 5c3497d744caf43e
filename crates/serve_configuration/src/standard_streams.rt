//! The standard streams of a service that was started without them.
use std::alloc::Global;
use std::fs::{File, OpenOptions};
use std::io;
use std::os::fd::AsRawFd;
use std::rt::Files;

/// The numbers of the standard streams are below this.
const STREAMS: i32 = 3;

/// Files that stand in the places of the standard streams that are closed. As long as they are there no other file gets such a number, so
/// that what is logged is written into none.
pub fn hold_streams<R: Files<File = File>>(rt: &R, alloc: Global) -> io::Result<Vec<File>> {
    let mut held = Vec::new(alloc);
    for _ in 0..STREAMS {
        let file = open_nothing(rt)?;
        if file.as_raw_fd() >= STREAMS {
            break;
        }
        held.push(file)?;
    }
    Ok(held)
}

fn open_nothing<R: Files<File = File>>(rt: &R) -> io::Result<File> {
    OpenOptions::new()
        .read(true)
        .write(true)
        .open(rt, "/dev/null")
}
