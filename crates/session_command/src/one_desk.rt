//! A session over its desk.
ghost use Rattle.std.specs.Prelude.{◌≡◌, ◌<◌, ◌≤◌, IfOk, OnOk};
ghost use Rattle.std.specs.Arc.{arc_value};
ghost use Rattle.alloc_desk.specs.declared.limits.TheConstants.{MOST_PASSES};
ghost use Rattle.sd_server.specs.Named.{AreNamed};
ghost use Rattle.session_command.specs.Totals.{IsEnded, IsReached};

use crate::asking::ask_all;
use crate::ended::Halt;
use crate::session_tasks::{SessionTasks, device};
use admission::Admission;
use alloc_desk::{Desk, DeskName, Log, Pass};
use allocation_core::Core;
use collector_pool::Open;
use event_loops::{LoopRuntime, Runtime};
use fleet::JobSpec;
use kept_journal::JournalName;
use lists::Text;
use sd_documents::scrape_configs_text;
use sd_server::{Handler, HandlerParts, ListTexts, are_named, serve_one_by_one};
use service_state::{ConfigPages, Lifecycle, ServiceState};
use session::{Session, total_line};
use session_rounds::{begin, run_rounds};
use std::alloc::{AllocError, AllocGlobal, Global};
use std::net::{Ipv4Addr, Net, SocketAddr, TcpListener, TcpStream};
use std::random::RandomSource;
use std::sync::atomic::{AtomicBool, Ordering};
use std::sync::ledger::{Blank, Ledger};
use std::sync::{Arc, Mutex, Wait};
use std::time::Clock;
use std::{io, thread};
use tokio::runtime::LocalRuntime;

/// How many passes a desk has beside those of the collectors: that of the refresher, and that of the server.
pub(crate) const OTHER_SEATS: u32 = 2;

/// Runs a session over a desk with so many passes, and writes its lines.
pub(crate) fn run_over_desk<R, L, B, N>(
    rt: &R,
    alloc: Global,
    session: &Session,
    core: Core,
    seats: u32,
    calls: Blank,
    samples: Blank,
    log: Log,
    text: &mut Vec<u8>,
) -> Result<(), Halt>
where
    R: Runtime,
    L: Ledger + Send + Sync,
    B: Ledger + Send + Sync,
    N: JournalName + Send + Sync,
    requires core { (core ≡ N.opening) × (N.seats ≡ seats) }
    requires seats { (0 < seats) × (seats ≤ MOST_PASSES) }
    requires calls { (calls.name ≡ L.name) × (calls.parts ≡ L.parts) × (L.parts ≡ seats) }
    requires samples { (samples.name ≡ B.name) × (samples.parts ≡ B.parts) × (B.parts ≡ seats) }
    requires log { log ≡ N.book }
{
    match parts_of(alloc, session, core.fleet().jobs()) {
        Ok(parts) => run_shown::<R, L, B, N>(
            rt, alloc, session, parts, core, seats, calls, samples, log, text,
        ),
        Err(AllocError) => {
            drop(core);
            Err(AllocError.into())
        }
    }
}

/// Runs a session over a desk of an allocator whose jobs are those of the parts.
fn run_shown<R, L, B, N>(
    rt: &R,
    alloc: Global,
    session: &Session,
    parts: HandlerParts<N>,
    core: Core,
    seats: u32,
    calls: Blank,
    samples: Blank,
    log: Log,
    text: &mut Vec<u8>,
) -> Result<(), Halt>
where
    R: Runtime,
    L: Ledger + Send + Sync,
    B: Ledger + Send + Sync,
    N: JournalName + Send + Sync,
    requires core { (core ≡ N.opening) × (N.seats ≡ seats) }
    requires seats { (0 < seats) × (seats ≤ MOST_PASSES) }
    requires calls { (calls.name ≡ L.name) × (calls.parts ≡ L.parts) × (L.parts ≡ seats) }
    requires samples { (samples.name ≡ B.name) × (samples.parts ≡ B.parts) × (B.parts ≡ seats) }
    requires log { log ≡ N.book }
    requires named { AreNamed (arc_value parts.pages).names N.opening.fleet.jobs }
{
    match Desk::<L, B, N>::open(alloc, core, seats, calls, samples, log) {
        Ok((desk, passes)) => run_open(rt, alloc, session, parts, desk, passes, text),
        Err(core) => {
            drop((parts, core));
            Err(AllocError.into())
        }
    }
}

/// Runs a session over a desk with its passes.
fn run_open<R, L, B, N>(
    rt: &R,
    alloc: Global,
    session: &Session,
    parts: HandlerParts<N>,
    desk: Desk<L, B, N>,
    mut passes: Vec<Pass<L, B, N>>,
    text: &mut Vec<u8>,
) -> Result<(), Halt>
where
    R: Runtime,
    L: Ledger + Send + Sync,
    B: Ledger + Send + Sync,
    N: JournalName + Send + Sync,
    requires { AreNamed (arc_value parts.pages).names N.opening.fleet.jobs }
{
    let Some(asked) = passes.pop() else {
        drop((parts, desk, passes));
        return Err(AllocError.into());
    };
    let Some(own) = passes.pop() else {
        drop((parts, desk, asked, passes));
        return Err(AllocError.into());
    };
    let session_tasks = match SessionTasks::of(rt, alloc, own, passes) {
        Ok(session_tasks) => session_tasks,
        Err(AllocError) => {
            drop((parts, desk, asked));
            return Err(AllocError.into());
        }
    };
    match Handler::over(*rt, alloc, parts, desk, asked) {
        Ok(handler) => run_by(rt, alloc, session, handler, session_tasks, text),
        Err(AllocError) => {
            drop(session_tasks);
            Err(AllocError.into())
        }
    }
}

/// Runs a session over a handler's desk.
fn run_by<R, L, B, N>(
    rt: &R,
    alloc: Global,
    session: &Session,
    handler: Handler<R, L, B, N>,
    mut session_tasks: SessionTasks<R, L, B, N>,
    text: &mut Vec<u8>,
) -> Result<(), Halt>
where
    R: Runtime,
    L: Ledger + Send + Sync,
    B: Ledger + Send + Sync,
    N: JournalName + Send + Sync,
{
    match run(rt, alloc, session, &handler, &mut session_tasks, text) {
        Ok(answers) => end(alloc, handler, session_tasks, answers.as_slice(), text),
        Err(halt) => {
            drop((handler, session_tasks));
            Err(halt)
        }
    }
}

/// What a session's handler has beside its desk, over an allocator with these jobs, which are those of its configuration.
fn parts_of<N: JournalName>(
    alloc: Global,
    session: &Session,
    jobs: &[JobSpec],
) -> Result<HandlerParts<N>, AllocError>
    ensures { IfOk result (λ p. AreNamed (arc_value p.pages).names jobs.now) }
{
    let pages = named_pages(alloc, session, jobs)?;
    match own_parts(alloc) {
        Ok((state, texts, doors)) => Ok(HandlerParts {
            pages,
            state,
            kept: None,
            epoch: 0,
            texts,
            doors,
        }),
        Err(error) => {
            drop(pages);
            Err(error)
        }
    }
}

/// What any session has: a state without a lifecycle, no texts yet, and doors that are open to all.
fn own_parts<N: JournalName>(
    alloc: Global,
) -> Result<(Arc<ServiceState>, Arc<ListTexts<N>>, Arc<Admission>), AllocError> {
    let lifecycle = Lifecycle {
        reload: false,
        quit: false,
    };
    let state = shared(alloc, ServiceState::new(alloc, lifecycle, 0)?)?;
    let texts = ListTexts::shared(alloc)?;
    let doors = shared(alloc, Admission::open())?;
    Ok((state, texts, doors))
}

/// The pages of a session's configuration, under which an allocator with these jobs was opened.
fn named_pages(
    alloc: Global,
    session: &Session,
    jobs: &[JobSpec],
) -> Result<Arc<ConfigPages>, AllocError>
    ensures { IfOk result (λ p. AreNamed (arc_value p).names jobs.now) }
{
    let pages = pages_of(alloc, session)?;
    match are_named(alloc, &pages, jobs) {
        Ok(true) => Ok(pages),
        Ok(false) | Err(AllocError) => {
            drop(pages);
            Err(AllocError)
        }
    }
}

fn pages_of(alloc: Global, session: &Session) -> Result<Arc<ConfigPages>, AllocError> {
    let scrape_configs = scrape_configs_text(alloc, &session.config)?;
    let pages = ConfigPages::of(alloc, &session.config, scrape_configs)?;
    shared(alloc, pages)
}

fn shared<T: Drop>(alloc: Global, value: T) -> Result<Arc<T>, AllocError> {
    Ok(Arc::new(alloc, value)?)
}

/// Runs the rounds and writes their lines. Gives what the allocator answered after them.
fn run<R, L, B, N>(
    rt: &R,
    alloc: Global,
    session: &Session,
    handler: &Handler<R, L, B, N>,
    session_tasks: &mut SessionTasks<R, L, B, N>,
    text: &mut Vec<u8>,
) -> Result<Vec<u8>, Halt>
where
    R: Runtime,
    L: Ledger + Send + Sync,
    B: Ledger + Send + Sync,
    N: JournalName + Send + Sync,
{
    let SessionTasks { refresher, workers } = session_tasks;
    begin(&handler.desk, rt, alloc, session, refresher, text)?;
    run_rounds(
        &handler.desk,
        rt,
        alloc,
        session.config.jobs.as_slice(),
        session.rounds,
        workers.as_mut_slice(),
        refresher,
        &Open,
        text,
    )?;
    ask(rt, alloc, handler, session.asks.as_slice())
}

/// Asks a server of the allocator for each path.
fn ask<R, L, B, N>(
    rt: &R,
    alloc: Global,
    handler: &Handler<R, L, B, N>,
    paths: &[Text],
) -> Result<Vec<u8>, Halt>
where
    R: Runtime,
    L: Ledger + Send + Sync,
    B: Ledger + Send + Sync,
    N: JournalName + Send + Sync,
{
    let mut runtime = LocalRuntime::new(rt)?;
    let any = SocketAddr::from((Ipv4Addr::LOCALHOST, 0));
    let bound = tokio::net::TcpListener::bind(rt, any, runtime.handle().reactor());
    let answers = match bound {
        Ok(listener) => ask_over(rt, alloc, &mut runtime, listener, handler, paths),
        Err(error) => Err(error.into()),
    };
    drop(runtime);
    answers
}

/// Asks a server of the allocator that listens here for each path.
fn ask_over<R, L, B, N>(
    rt: &R,
    alloc: Global,
    runtime: &mut LocalRuntime,
    listener: tokio::net::TcpListener,
    handler: &Handler<R, L, B, N>,
    paths: &[Text],
) -> Result<Vec<u8>, Halt>
where
    R: Runtime,
    L: Ledger + Send + Sync,
    B: Ledger + Send + Sync,
    N: JournalName + Send + Sync,
{
    let here = listener.local_addr()?;
    let stop = AtomicBool::new(false);
    let (served, answers) = thread::join(
        rt,
        || serve_one_by_one(rt, runtime, listener, handler, &stop),
        || ask_then_stop(rt, alloc, here, paths, &stop),
    );
    answered(served, answers)
}

/// The answers, where the server ended well.
fn answered(served: io::Result<()>, answers: Result<Vec<u8>, AllocError>) -> Result<Vec<u8>, Halt> {
    match served {
        Ok(()) => Ok(answers?),
        Err(error) => Err(error.into()),
    }
}

fn ask_then_stop<R>(
    rt: &R,
    alloc: Global,
    here: SocketAddr,
    paths: &[Text],
    stop: &AtomicBool,
) -> Result<Vec<u8>, AllocError>
where
    R: LoopRuntime,
{
    let answers = ask_at(rt, alloc, here, paths);
    stop.store(true, Ordering::SeqCst);
    let _last = TcpStream::connect(rt, here);
    answers
}

fn ask_at<R>(rt: &R, alloc: Global, here: SocketAddr, paths: &[Text]) -> Result<Vec<u8>, AllocError>
where
    R: Wait + Clock + Net + RandomSource + AllocGlobal + Copy + Drop,
{
    let address = format!(in alloc; "{here}")?;
    ask_all(alloc, &mut device(rt), address.as_str(), paths)
}

/// Ends a session whose rounds are over.
fn end<R: Copy + Drop, L: Ledger, B: Ledger, N: JournalName>(
    alloc: Global,
    handler: Handler<R, L, B, N>,
    session_tasks: SessionTasks<R, L, B, N>,
    answers: &[u8],
    text: &mut Vec<u8>,
) -> Result<(), Halt> {
    match session_tasks.into_passes(alloc) {
        Ok(passes) => write_end(alloc, handler, passes, answers, text),
        Err(AllocError) => {
            drop(handler);
            Err(AllocError.into())
        }
    }
}

/// Closes the desk, and writes the total and the answers.
fn write_end<R: Drop, L: Ledger, B: Ledger, N: JournalName>(
    alloc: Global,
    handler: Handler<R, L, B, N>,
    passes: Vec<Pass<L, B, N>>,
    answers: &[u8],
    text: &mut Vec<u8>,
) -> Result<(), Halt>
    ensures { OnOk result (IsEnded N.opening answers.now text.old.items text.new.items) }
{
    let core = closed(handler, passes)?;
    let line = total_line(alloc, core.total());
    drop(core);
    let line = line?;
    text.extend_from_slice(line.as_bytes())?;
    text.extend_from_slice(answers)?;
    Ok(())
}

/// Closes the desk of a handler whose server has ended.
fn closed<R: Drop, L: Ledger, B: Ledger, N: JournalName>(
    handler: Handler<R, L, B, N>,
    passes: Vec<Pass<L, B, N>>,
) -> Result<Core, Halt>
    ensures { IfOk result (IsReached N.opening) }
{
    let (desk, pass) = desk_of(handler);
    let (desk, passes) = brought_back(desk, pass, passes)?;
    match desk.close(passes) {
        Ok(closed) => Ok(closed.into_core()),
        Err(missing) => {
            drop(missing);
            Err(Halt::Device)
        }
    }
}

/// The desk of a handler, and the pass of its server.
fn desk_of<R: Drop, L: Ledger, B: Ledger, N: JournalName>(
    handler: Handler<R, L, B, N>,
) -> (Arc<Desk<L, B, N>>, Arc<Mutex<Pass<L, B, N>>>) {
    (handler.desk, handler.pass)
}

/// A desk with all its passes, where no thread has it or its server's pass any more.
fn brought_back<L: Ledger, B: Ledger, N: DeskName>(
    desk: Arc<Desk<L, B, N>>,
    pass: Arc<Mutex<Pass<L, B, N>>>,
    mut passes: Vec<Pass<L, B, N>>,
) -> Result<(Desk<L, B, N>, Vec<Pass<L, B, N>>), Halt> {
    let Some(desk) = Arc::into_inner(desk) else {
        drop((pass, passes));
        return Err(Halt::Device);
    };
    let Some(pass) = Arc::into_inner(pass) else {
        drop((desk, passes));
        return Err(Halt::Device);
    };
    match passes.push(pass.into_inner()) {
        Ok(()) => Ok((desk, passes)),
        Err(refused) => {
            drop((refused, desk, passes));
            Err(AllocError.into())
        }
    }
}
