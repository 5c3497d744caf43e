//! The threads over one desk.
ghost use Rattle.std.specs.Thread.{IsSend};

use alloc_desk::Pass;
use durable_journal::Device;
use event_loops::{Gate, Runtime};
use file_configs::ReadFiles;
use http_get::FetchSeveral;
use kept_journal::{DeskJournal, JournalName};
use sd_server::{DEFAULT_LOOPS, Handler, serve_by_loops};
use service_tasks::{Configuration, DeskPasses, Schedule, ServiceContext, Shared, Watch};
use std::alloc::Global;
use std::net::TcpListener;
use std::sync::atomic::{AtomicBool, Ordering};
use std::sync::ledger::Ledger;
use std::sync::{Arc, Wait};
use std::time::Clock;
use std::{io, thread};

/// A desk that is served: what its threads share, and its server.
#[derive(Drop)]
pub(crate) struct Served<'a, R, L: Ledger, B: Ledger, N: JournalName> {
    pub(crate) rt: R,
    pub(crate) alloc: Global,
    pub(crate) shared: &'a Shared<R, L, B, N>,
    pub(crate) handler: &'a Handler<R, L, B, N>,
    pub(crate) gate: &'a Arc<Gate>,
}

impl<'a, R, L, B, N> Served<'a, R, L, B, N>
where
    R: Runtime + Eprint,
    L: Ledger + Send + Sync,
    B: Ledger + Send + Sync,
    N: JournalName + Send + Sync,
{
    /// Runs the threads: that which keeps the journal ends once all others have.
    pub(crate) fn run<
        S: FetchSeveral + ReadFiles + Send + Drop,
        F: Device + Send + Drop,
        C: Configuration + Send + Drop,
    >(
        &self,
        context: &mut ServiceContext<S, F, C>,
        journal: &mut Option<DeskJournal<F, N>>,
        desk_passes: &mut DeskPasses<L, B, N>,
    ) -> io::Result<()> {
        let ServiceContext {
            listener,
            schedule,
            watch,
            ..
        } = context;
        let DeskPasses {
            scheduler,
            keeper,
            refresher,
        } = desk_passes;
        let is_last = AtomicBool::new(false);
        let ((), served) = thread::join(
            &self.rt,
            || self.shared.keep(keeper, journal, &is_last),
            || -> io::Result<()>
                requires { IsSend L.row × IsSend B.row × IsSend N.row × IsSend S.row × IsSend C.row }
            {
                let served = self.run_others(listener, scheduler, schedule, refresher, watch);
                is_last.store(true, Ordering::SeqCst);
                self.shared.wake_keeper();
                served
            },
        );
        served
    }

    /// Runs the threads but that which keeps the journal. Where another desk follows, requests are answered until all others have ended.
    fn run_others<S: FetchSeveral + ReadFiles + Send + Drop, C: Configuration + Send>(
        &self,
        listener: &TcpListener,
        scheduler: &mut Pass<L, B, N>,
        schedule: &mut Schedule<C>,
        refresher: &mut Pass<L, B, N>,
        watch: &mut Watch<S>,
    ) -> io::Result<()> {
        let (served, ((), ())) = thread::join(
            &self.rt,
            || self.serve(listener),
            || -> ((), ())
                requires { IsSend L.row × IsSend B.row × IsSend N.row × IsSend S.row × IsSend C.row }
            {
                let ended = thread::join(
                    &self.rt,
                    || self.schedule(scheduler, schedule),
                    || self.shared.refresh_sources(refresher, watch),
                );
                if !self.shared.is_quitting() {
                    self.stop();
                }
                ended
            },
        );
        served
    }

    /// Answers requests until the gate is stopped. Where no server can be, the service ends.
    fn serve(&self, listener: &TcpListener) -> io::Result<()> {
        let served = serve_by_loops(
            &self.rt,
            self.alloc,
            DEFAULT_LOOPS,
            self.gate,
            listener,
            self.handler,
        );
        self.shared.quit();
        served
    }
}

impl<R: Wait + Clock + Eprint + Copy, L: Ledger, B: Ledger, N: JournalName> Served<'_, R, L, B, N> {
    /// Opens rounds and reallocates until the desk is to be closed. Where the service is to end, no request is taken from then on.
    fn schedule<C: Configuration>(&self, pass: &mut Pass<L, B, N>, schedule: &mut Schedule<C>) {
        self.shared.keep_schedule(pass, schedule);
        if self.shared.is_quitting() {
            self.stop();
        }
    }

    fn stop(&self) {
        self.gate.stop();
    }
}
