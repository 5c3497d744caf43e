//! The page server: one connection after the other, each for one request.
use crate::paging::respond;
use session::Page;
use std::alloc::Global;
use std::io;
use std::io::{Read, Write};
use std::net::{TcpListener, TcpStream};
use std::sync::atomic::{AtomicBool, Ordering};
use std::time::Duration;

/// How long is waited for a client at most.
const LONGEST_SECONDS: u64 = 5;

/// How many bytes of a head are read at once.
const PIECE: usize = 1_024;

/// What ends a head.
const HEAD_END: &[u8] = b"\r\n\r\n";

/// How often is read at most until a head has ended.
const MOST_READS: u32 = 64;

/// Answers one connection after the other, until the flag is set and one more came.
pub(crate) fn serve_pages(
    alloc: Global,
    listener: &TcpListener,
    pages: &mut Vec<Page>,
    stop: &AtomicBool,
) {
    for connection in listener.incoming() {
        if stop.load(Ordering::SeqCst) {
            return;
        }
        if let Ok(mut stream) = connection {
            // A connection that fails is dropped, and the next is served.
            let _ = answer_one(alloc, &mut stream, pages);
        }
    }
}

fn answer_one(alloc: Global, stream: &mut TcpStream, pages: &mut Vec<Page>) -> io::Result<()> {
    let longest = Some(Duration::from_secs(LONGEST_SECONDS));
    stream.set_read_timeout(longest)?;
    stream.set_write_timeout(longest)?;
    let head = read_head(alloc, stream)?;
    // A head that is no text asks for nothing.
    let head = str::from_utf8(head.as_slice()).unwrap_or("");
    let answer = respond(alloc, pages, head)?;
    stream.write_all(answer.as_str().as_bytes())
}

/// Reads to the end of a head, or as much of it as comes.
fn read_head<S: Read>(alloc: Global, stream: &mut S) -> io::Result<Vec<u8>> {
    let mut head = Vec::new(alloc);
    let mut piece = [0u8; PIECE];
    for _ in 0..MOST_READS {
        let count = stream.read(piece.as_mut_slice())?;
        head.extend_from_slice(&piece[..count])?;
        if count == 0 || is_whole(head.as_slice()) {
            break;
        }
    }
    Ok(head)
}

/// Whether the empty line behind a head has come.
fn is_whole(head: &[u8]) -> bool {
    head.windows(4).any(|bytes| bytes == HEAD_END)
}
