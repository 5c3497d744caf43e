//! Devices that have several fetches under way.
use crate::cause::Cause;
use crate::get::Get;
use crate::reply::Reply;
use std::io;
use std::time::Duration;

/// What whoever asks wants next.
#[derive(Drop)]
pub enum Next {
    /// This is to be asked; what it comes to is told with this mark.
    Ask { mark: usize, get: Get },
    /// It is to be waited for what is under way, at most so long.
    Wait(Duration),
    /// Nothing more is asked, and what is under way is given up.
    End,
}

/// Who asks several at once.
pub trait Asker {
    /// What is wanted next.
    fn next(&mut self) -> Next;

    /// What it came to that was asked with this mark.
    fn hear(&mut self, mark: usize, fetched: Result<Reply, Cause>);
}

/// A device that has several fetches under way at once, all on the calling thread.
pub trait FetchSeveral {
    /// Asks what is wanted until nothing more is. It fails where the device does.
    fn fetch_for<A: Asker>(&self, asker: &mut A) -> io::Result<()>;
}
