//! The service over one desk.
ghost use Rattle.std.specs.Prelude.{◌≡◌, None, IfOk};
ghost use Rattle.std.specs.Arc.{arc_value};
ghost use Rattle.journal_entries.specs.Legal.{IsLegal};
ghost use Rattle.kept_journal.specs.Keeping.{IsOfService, MeansKeptWhere};
ghost use Rattle.sd_server.specs.Named.{AreNamed};
ghost use Rattle.service_tasks.specs.Later.{IsLater};

use crate::running::Served;
use alloc_desk::{Closed, Desk, Log, Pass};
use allocation_core::Core;
use durable_journal::Device;
use event_loops::{Gate, Runtime, Times};
use file_configs::ReadFiles;
use http_get::FetchSeveral;
use kept_journal::{DeskJournal, JournalName, Kept};
use sd_server::{Handler, HandlerParts, ListTexts, are_named};
use service_state::{ConfigPages, ServiceState};
use service_tasks::{
    Configuration, DeskPasses, Ending, Journal, Service, ServiceContext, Shared, Watch, kept_of,
};
use std::alloc::{AllocError, Global};
use std::io;
use std::sync::ledger::{Blank, Ledger};
use std::sync::{Arc, Mutex, Wait};

/// How many passes a desk has: of the server, of the schedule, of the journal's file, and of the refresher.
pub(crate) const SEATS: u32 = 4;

/// Serves over one desk until it is to be closed, and gives the allocator back. The file of the journal led to the allocator that the desk is
/// opened with, and leads to the one that it is closed with.
pub(crate) fn serve_desk<R, L, B, N, S, F, C>(
    rt: &R,
    alloc: Global,
    service: &Service,
    context: &mut ServiceContext<S, F, C>,
    core: Core,
    calls: Blank,
    samples: Blank,
    log: Log,
) -> io::Result<(Core, Ending)>
where
    R: Runtime + Eprint,
    L: Ledger + Send + Sync,
    B: Ledger + Send + Sync,
    N: JournalName + Send + Sync,
    S: FetchSeveral + ReadFiles + Send + Drop,
    F: Device + Send + Drop,
    C: Configuration + Send + Drop,
    requires core { (core ≡ N.opening) × (N.seats ≡ SEATS) }
    requires calls { (calls.name ≡ L.name) × (calls.parts ≡ L.parts) × (L.parts ≡ SEATS) }
    requires samples { (samples.name ≡ B.name) × (samples.parts ≡ B.parts) × (B.parts ≡ SEATS) }
    requires log { log ≡ N.book }
    requires file { IsOfService F.tells F.contents N.opening context.old.journal.file }
    requires keeps { MeansKeptWhere F.tells F.kept N.opening context.old.journal.file N.keeps }
    ensures later { IfOk result (λ r. IsLater N.opening r.0) }
    ensures file { IfOk result (λ r. IsOfService F.tells F.contents r.0 context.new.journal.file) }
{
    match are_named(alloc, &context.pages, core.fleet().jobs()) {
        Ok(true) => serve_named::<R, L, B, N, S, F, C>(
            rt, alloc, service, context, core, calls, samples, log,
        ),
        Ok(false) => {
            drop(core);
            Err(io::Error::other("the configuration has other jobs than the allocator"))
        }
        Err(error) => {
            drop(core);
            Err(error.into())
        }
    }
}

/// Serves over one desk of an allocator whose jobs are those of the configuration.
fn serve_named<R, L, B, N, S, F, C>(
    rt: &R,
    alloc: Global,
    service: &Service,
    context: &mut ServiceContext<S, F, C>,
    core: Core,
    calls: Blank,
    samples: Blank,
    log: Log,
) -> io::Result<(Core, Ending)>
where
    R: Runtime + Eprint,
    L: Ledger + Send + Sync,
    B: Ledger + Send + Sync,
    N: JournalName + Send + Sync,
    S: FetchSeveral + ReadFiles + Send + Drop,
    F: Device + Send + Drop,
    C: Configuration + Send + Drop,
    requires core { (core ≡ N.opening) × (N.seats ≡ SEATS) }
    requires calls { (calls.name ≡ L.name) × (calls.parts ≡ L.parts) × (L.parts ≡ SEATS) }
    requires samples { (samples.name ≡ B.name) × (samples.parts ≡ B.parts) × (B.parts ≡ SEATS) }
    requires log { log ≡ N.book }
    requires named { AreNamed (arc_value context.old.pages).names N.opening.fleet.jobs }
    requires file { IsOfService F.tells F.contents N.opening context.old.journal.file }
    requires keeps { MeansKeptWhere F.tells F.kept N.opening context.old.journal.file N.keeps }
    ensures later { IfOk result (λ r. IsLater N.opening r.0) }
    ensures file { IfOk result (λ r. IsOfService F.tells F.contents r.0 context.new.journal.file) }
{
    match Desk::<L, B, N>::open(alloc, core, SEATS, calls, samples, log) {
        Ok((desk, passes)) => {
            let journal = context.journal.of_desk(desk.front(rt));
            serve_open(rt, alloc, service, context, journal, desk, passes)
        }
        Err(core) => {
            drop(core);
            Err(AllocError.into())
        }
    }
}

/// Serves over a desk with its passes.
fn serve_open<R, L, B, N, S, F, C>(
    rt: &R,
    alloc: Global,
    service: &Service,
    context: &mut ServiceContext<S, F, C>,
    journal: Option<DeskJournal<F, N>>,
    desk: Desk<L, B, N>,
    mut passes: Vec<Pass<L, B, N>>,
) -> io::Result<(Core, Ending)>
where
    R: Runtime + Eprint,
    L: Ledger + Send + Sync,
    B: Ledger + Send + Sync,
    N: JournalName + Send + Sync,
    S: FetchSeveral + ReadFiles + Send + Drop,
    F: Device + Send + Drop,
    C: Configuration + Send + Drop,
    requires { AreNamed (arc_value context.old.pages).names N.opening.fleet.jobs }
    ensures later { IfOk result (λ r. IsLater N.opening r.0) }
    ensures file { IfOk result (λ r. IsOfService F.tells F.contents r.0 context.new.journal.file) }
{
    let Some(asked) = passes.pop() else {
        drop((journal, desk, passes));
        return Err(AllocError.into());
    };
    let Some(desk_passes) = DeskPasses::from_passes(passes) else {
        drop((journal, desk, asked));
        return Err(AllocError.into());
    };
    match handler_of(rt, alloc, context, &journal, desk, asked) {
        Ok(handler) => serve_by(rt, service, context, journal, handler, desk_passes),
        Err(AllocError) => {
            drop((journal, desk_passes));
            Err(AllocError.into())
        }
    }
}

/// Serves over a handler's desk. Where the desk has a journal, the handler waits for what is kept of it.
fn serve_by<R, L, B, N, S, F, C>(
    rt: &R,
    service: &Service,
    context: &mut ServiceContext<S, F, C>,
    mut journal: Option<DeskJournal<F, N>>,
    handler: Handler<R, L, B, N>,
    mut desk_passes: DeskPasses<L, B, N>,
) -> io::Result<(Core, Ending)>
where
    R: Runtime + Eprint,
    L: Ledger + Send + Sync,
    B: Ledger + Send + Sync,
    N: JournalName + Send + Sync,
    S: FetchSeveral + ReadFiles + Send + Drop,
    F: Device + Send + Drop,
    C: Configuration + Send + Drop,
    requires { handler.kept ≡ None → journal ≡ None }
    ensures later { IfOk result (λ r. IsLater N.opening r.0) }
    ensures file { IfOk result (λ r. IsOfService F.tells F.contents r.0 context.new.journal.file) }
{
    match run(
        rt,
        service,
        context,
        &mut journal,
        &handler,
        &mut desk_passes,
    ) {
        Ok(ending) => ended(
            &mut context.journal,
            &mut context.watch,
            journal,
            handler,
            desk_passes,
            ending,
        ),
        Err(error) => {
            drop((journal, handler, desk_passes));
            Err(error)
        }
    }
}

/// What requests are handled with.
fn handler_of<R: Wait + Copy, L: Ledger, B: Ledger, N: JournalName, S, F: Device, C>(
    rt: &R,
    alloc: Global,
    context: &ServiceContext<S, F, C>,
    journal: &Option<DeskJournal<F, N>>,
    desk: Desk<L, B, N>,
    asked: Pass<L, B, N>,
) -> Result<Handler<R, L, B, N>, AllocError>
    requires { AreNamed (arc_value context.now.pages).names N.opening.fleet.jobs }
    ensures { IfOk result (λ h. h.kept ≡ None → journal.now ≡ None) }
{
    match parts_of(rt, alloc, context, journal) {
        Ok(parts) => Handler::over(*rt, alloc, parts, desk, asked),
        Err(error) => {
            drop((desk, asked));
            Err(error)
        }
    }
}

fn parts_of<R: Wait, S, F: Device, C, N: JournalName>(
    rt: &R,
    alloc: Global,
    context: &ServiceContext<S, F, C>,
    journal: &Option<DeskJournal<F, N>>,
) -> Result<HandlerParts<N>, AllocError>
    ensures kept { IfOk result (λ p. p.kept ≡ None → journal.now ≡ None) }
    ensures pages { IfOk result (λ p. arc_value p.pages ≡ arc_value context.now.pages) }
{
    let kept = kept_of(rt, alloc, journal)?;
    let texts = ListTexts::shared(alloc)?;
    let pages = Arc::try_clone(&context.pages)?;
    let state = Arc::try_clone(&context.state)?;
    let doors = Arc::try_clone(&context.doors)?;
    Ok(HandlerParts {
        pages,
        state,
        kept,
        epoch: context.journal.epoch,
        texts,
        doors,
    })
}

/// The gate of a server with as many connections as the service may have.
fn gate_of<S, F, C>(
    alloc: Global,
    context: &ServiceContext<S, F, C>,
) -> Result<Arc<Gate>, AllocError> {
    shared(
        alloc,
        Gate::new(alloc, context.connections, Times::DEFAULT)?,
    )
}

fn shared<T: Drop>(alloc: Global, value: T) -> Result<Arc<T>, AllocError> {
    Ok(Arc::new(alloc, value)?)
}

/// Runs the threads of a desk, and says why it is to be closed.
fn run<R, L, B, N, S, F, C>(
    rt: &R,
    service: &Service,
    context: &mut ServiceContext<S, F, C>,
    journal: &mut Option<DeskJournal<F, N>>,
    handler: &Handler<R, L, B, N>,
    desk_passes: &mut DeskPasses<L, B, N>,
) -> io::Result<Ending>
where
    R: Runtime + Eprint,
    L: Ledger + Send + Sync,
    B: Ledger + Send + Sync,
    N: JournalName + Send + Sync,
    S: FetchSeveral + ReadFiles + Send + Drop,
    F: Device + Send + Drop,
    C: Configuration + Send + Drop,
    requires { handler.now.kept ≡ None → journal.old ≡ None }
{
    let gate = gate_of(handler.alloc, context)?;
    match shared_by(rt, service, context, handler) {
        Ok(shared) => {
            let ending = run_over(
                rt,
                service,
                context,
                journal,
                handler,
                desk_passes,
                &gate,
                &shared,
            );
            drop((shared, gate));
            ending
        }
        Err(error) => {
            drop(gate);
            Err(error.into())
        }
    }
}

/// Enters what the configuration begins with, and runs the threads until the desk is to be closed.
fn run_over<R, L, B, N, S, F, C>(
    rt: &R,
    service: &Service,
    context: &mut ServiceContext<S, F, C>,
    journal: &mut Option<DeskJournal<F, N>>,
    handler: &Handler<R, L, B, N>,
    desk_passes: &mut DeskPasses<L, B, N>,
    gate: &Arc<Gate>,
    shared: &Shared<R, L, B, N>,
) -> io::Result<Ending>
where
    R: Runtime + Eprint,
    L: Ledger + Send + Sync,
    B: Ledger + Send + Sync,
    N: JournalName + Send + Sync,
    S: FetchSeveral + ReadFiles + Send + Drop,
    F: Device + Send + Drop,
    C: Configuration + Send + Drop,
    requires { handler.now.kept ≡ None → journal.old ≡ None }
{
    if let Err(error) = shared.begin(&mut desk_passes.scheduler, service, context) {
        return Err(error.into());
    }
    let served = Served {
        rt: *rt,
        alloc: handler.alloc,
        shared,
        handler,
        gate,
    };
    match served.run(context, journal, desk_passes) {
        Ok(()) => Ok(shared.ending()),
        Err(error) => Err(error),
    }
}

/// What the threads over a handler's desk share.
fn shared_by<R: Wait + Copy, L: Ledger, B: Ledger, N: JournalName, S, F, C>(
    rt: &R,
    service: &Service,
    context: &ServiceContext<S, F, C>,
    handler: &Handler<R, L, B, N>,
) -> Result<Shared<R, L, B, N>, AllocError> {
    let desk = Arc::try_clone(&handler.desk)?;
    let kept = Kept::shared(&handler.kept)?;
    Shared::new(rt, handler.alloc, service, context, desk, kept)
}

/// Closes the desk of a handler whose threads have ended, with their passes, and its journal.
fn ended<R: Drop, L: Ledger, B: Ledger, N: JournalName, S, F: Device + Drop>(
    service: &mut Journal<F>,
    watch: &mut Watch<S>,
    journal: Option<DeskJournal<F, N>>,
    handler: Handler<R, L, B, N>,
    desk_passes: DeskPasses<L, B, N>,
    ending: Ending,
) -> io::Result<(Core, Ending)>
    ensures later { IfOk result (λ r. IsLater N.opening r.0) }
    ensures file { IfOk result (λ r. IsOfService F.tells F.contents r.0 service.new.file) }
{
    match desk_passes.into_passes(handler.alloc) {
        Ok(passes) => match closed(handler, passes) {
            Ok(closed) => {
                service.end_desk(journal, &closed);
                let (core, left) = closed.into_parts();
                watch.leave(left);
                Ok((core, ending))
            }
            Err(error) => {
                drop(journal);
                Err(error)
            }
        },
        Err(AllocError) => {
            drop((journal, handler));
            Err(AllocError.into())
        }
    }
}

/// Closes the desk of a handler whose threads have ended.
fn closed<R: Drop, L: Ledger, B: Ledger, N: JournalName>(
    handler: Handler<R, L, B, N>,
    passes: Vec<Pass<L, B, N>>,
) -> io::Result<Closed<N>>
    ensures { IfOk result (λ c. IsLegal N.opening c.journal c.state) }
{
    let (desk, pass) = desk_of(handler);
    let (desk, passes) = brought_back(desk, pass, passes)?;
    match desk.close(passes) {
        Ok(closed) => Ok(closed),
        Err(missing) => {
            drop(missing);
            Err(io::ErrorKind::ResourceBusy.into())
        }
    }
}

/// The desk of a handler, and the pass of its server.
fn desk_of<R: Drop, L: Ledger, B: Ledger, N: JournalName>(
    handler: Handler<R, L, B, N>,
) -> (Arc<Desk<L, B, N>>, Arc<Mutex<Pass<L, B, N>>>) {
    (handler.desk, handler.pass)
}

/// A desk with all its passes, where no thread has it or its server's pass any more.
fn brought_back<L: Ledger, B: Ledger, N: JournalName>(
    desk: Arc<Desk<L, B, N>>,
    pass: Arc<Mutex<Pass<L, B, N>>>,
    mut passes: Vec<Pass<L, B, N>>,
) -> io::Result<(Desk<L, B, N>, Vec<Pass<L, B, N>>)> {
    let Some(desk) = Arc::into_inner(desk) else {
        drop((pass, passes));
        return Err(io::ErrorKind::ResourceBusy.into());
    };
    let Some(pass) = Arc::into_inner(pass) else {
        drop((desk, passes));
        return Err(io::ErrorKind::ResourceBusy.into());
    };
    match passes.push(pass.into_inner()) {
        Ok(()) => Ok((desk, passes)),
        Err(refused) => {
            drop((desk, passes));
            Err(refused.into())
        }
    }
}
