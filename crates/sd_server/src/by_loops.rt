//! The server that strangers talk to: event loops over one listener, each on a thread of its own, and each connection a task of a loop.
use crate::handler::Handler;
use crate::service::AllocatorService;
use event_loops::{Answering, Gate, Runtime, serve_until_stopped};
use kept_journal::JournalName;
use std::alloc::{AllocError, Global};
use std::net::{SocketAddr, TcpListener};
use std::sync::ledger::Ledger;
use std::sync::{Arc, Wait};
use std::time::Clock;
use std::{io, thread};
use tokio::time::Handle;

/// How many event loops a server has where the caller names no number.
pub const DEFAULT_LOOPS: usize = 4;

/// Answers with what a desk says.
#[derive(Drop)]
struct DeskAnswers<'a, R, L: Ledger, B: Ledger, N: JournalName> {
    handler: &'a Handler<R, L, B, N>,
    gate: &'a Arc<Gate>,
}

impl<R: Wait + Clock + Copy + Drop, L: Ledger, B: Ledger, N: JournalName> Answering<R>
    for DeskAnswers<'_, R, L, B, N> {
    type OfLoop = AllocatorService<R, L, B, N>;

    type Service = AllocatorService<R, L, B, N>;

    fn of_loop(&self, time: &Handle) -> io::Result<AllocatorService<R, L, B, N>> {
        Ok(AllocatorService::of_loop(self.handler, time, self.gate)?)
    }

    fn service(
        &self,
        of_loop: &AllocatorService<R, L, B, N>,
        from: SocketAddr,
    ) -> Result<AllocatorService<R, L, B, N>, AllocError> {
        AllocatorService::of(&of_loop.handler, &of_loop.routes, Some(from))
    }

    fn fail(&self) {
        self.handler.state.count_failed_accept();
    }

    fn turn_away(&self) {
        self.handler.state.count_turned_away();
    }
}

/// Serves connections by so many event loops until the gate is stopped and each connection has ended.
pub fn serve_by_loops<
    R,
    L: Ledger + Send + Sync,
    B: Ledger + Send + Sync,
    N: JournalName + Send + Sync,
>(
    rt: &R,
    alloc: Global,
    loops: usize,
    gate: &Arc<Gate>,
    listener: &TcpListener,
    handler: &Handler<R, L, B, N>,
) -> io::Result<()>
where
    R: Runtime,
{
    let ended = thread::map_indices(
        rt,
        alloc,
        loops,
        &|_| { serve_until_stopped(rt, gate, listener, &DeskAnswers { handler, gate }) },
    )?;
    for one in ended {
        one?;
    }
    Ok(())
}
