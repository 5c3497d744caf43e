//! The connections of an instance that stands by, as tasks of one event loop.
use crate::service::StandingService;
use crate::standing::Standing;
use event_loops::{Answering, Gate, LoopRuntime, serve_until_stopped};
use sd_routes::Routes;
use std::alloc::{AllocError, AllocGlobal};
use std::io;
use std::net::{SocketAddr, TcpListener};
use std::sync::{Arc, Wait};
use std::time::Clock;
use tokio::time::Handle;

/// Answers while an instance stands by.
#[derive(Drop)]
struct StandingAnswers<'a, R> {
    rt: R,
    standing: &'a Arc<Standing>,
}

impl<R: Wait + Clock + AllocGlobal + Copy + Drop> Answering<R> for StandingAnswers<'_, R> {
    type OfLoop = Arc<Routes>;

    type Service = StandingService<R>;

    fn of_loop(&self, _time: &Handle) -> io::Result<Arc<Routes>> {
        let alloc = self.rt.alloc();
        Ok(Arc::new(alloc, Routes::open(alloc)?)?)
    }

    fn service(
        &self,
        of_loop: &Arc<Routes>,
        _from: SocketAddr,
    ) -> Result<StandingService<R>, AllocError> {
        let routes = Arc::try_clone(of_loop)?;
        match Arc::try_clone(self.standing) {
            Ok(standing) => Ok(StandingService {
                rt: self.rt,
                alloc: self.rt.alloc(),
                standing,
                routes,
            }),
            Err(error) => {
                drop(routes);
                Err(error)
            }
        }
    }

    fn fail(&self) {}

    fn turn_away(&self) {}
}

/// Serves the connections of a listener, on this thread, until the gate is stopped and each connection has ended. Where it finds no memory to begin, it begins again
/// after a pause.
pub fn serve_standing<R: LoopRuntime>(
    rt: &R,
    gate: &Gate,
    listener: &TcpListener,
    standing: &Arc<Standing>,
) -> io::Result<()> {
    serve_until_stopped(rt, gate, listener, &StandingAnswers { rt: *rt, standing })
}
