//! The connections of an agent's Prometheus, as tasks of one event loop.
use crate::list_store::ListStore;
use crate::service::ListService;
use event_loops::{Answering, Gate, LoopRuntime, serve_until_stopped};
use std::alloc::{AllocError, AllocGlobal};
use std::io;
use std::net::{SocketAddr, TcpListener};
use std::sync::{Arc, Wait};
use std::time::Clock;
use tokio::time::Handle;

/// Answers with what a store has.
#[derive(Drop)]
struct StoreAnswers<'a, R> {
    rt: R,
    store: &'a Arc<ListStore>,
}

impl<R: Wait + Clock + AllocGlobal + Copy + Drop> Answering<R> for StoreAnswers<'_, R> {
    type OfLoop = ();

    type Service = ListService<R>;

    fn of_loop(&self, _time: &Handle) -> io::Result<()> {
        Ok(())
    }

    fn service(&self, _of_loop: &(), _from: SocketAddr) -> Result<ListService<R>, AllocError> {
        Ok(ListService {
            rt: self.rt,
            alloc: self.rt.alloc(),
            store: Arc::try_clone(self.store)?,
        })
    }

    fn fail(&self) {}

    fn turn_away(&self) {}
}

/// Serves what a store has to the connections of a listener, on this thread, until the gate is stopped and each connection has ended. Where it finds no memory to
/// begin, it begins again after a pause.
pub fn serve_lists<R: LoopRuntime>(
    rt: &R,
    gate: &Gate,
    listener: &TcpListener,
    store: &Arc<ListStore>,
) -> io::Result<()> {
    serve_until_stopped(rt, gate, listener, &StoreAnswers { rt: *rt, store })
}
