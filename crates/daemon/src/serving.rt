//! A service from its beginning to its end.
ghost use Rattle.std.specs.Prelude.{◌≡◌, IfOk};
ghost use Rattle.kept_journal.specs.Keeping.{IsOfService};
ghost use Rattle.service_tasks.specs.Later.{IsLater};

use crate::one_desk::{SEATS, serve_desk};
use alloc_desk::Log;
use allocation_core::Core;
use durable_journal::{Archive, Device};
use event_loops::Runtime;
use file_configs::ReadFiles;
use http_get::FetchSeveral;
use service_tasks::{Configuration, Ending, Journal, Service, ServiceContext, continued};
use std::alloc::Global;
use std::io;
use std::marker::Brand;
use std::net::TcpListener;
use std::sync::ledger::Blank;

/// Serves over an allocator with its journal until the service is to end, and gives the allocator back as it is then. The file of the journal
/// leads to the allocator. The archive begins the journals after it: over each desk that is opened in between, the file that is written behind
/// leads to the allocator that the desk is opened with. The configuration is read again when a request asks for it. The device asks the sources, and reads their files.
pub fn serve<R, S, F, A, C>(
    rt: &R,
    alloc: Global,
    service: Service,
    listener: TcpListener,
    device: S,
    journal: Journal<F>,
    archive: &mut A,
    configuration: C,
    core: Core,
) -> io::Result<Core>
where
    R: Runtime + Eprint,
    S: FetchSeveral + ReadFiles + Send + Drop,
    F: Device + Send + Drop,
    A: Archive<F>,
    C: Configuration + Send + Drop,
    requires { IsOfService F.tells F.contents core journal.file }
    ensures { IfOk result (IsLater core) }
{
    match ServiceContext::open(
        rt,
        alloc,
        &service,
        listener,
        journal,
        device,
        configuration,
    ) {
        Ok(mut context) => {
            let mut service = service;
            let core = serve_desks(rt, alloc, &mut service, &mut context, archive, core);
            drop((service, context));
            core
        }
        Err(error) => {
            drop((service, core));
            Err(error)
        }
    }
}

/// Serves over a desk after the other until the service is to end. It fails where that is since its journal is broken.
#[tactic(auto, using(crate::proofs::Laters::later_trans, crate::proofs::Laters::later_refl))]
fn serve_desks<R, S, F, A, C>(
    rt: &R,
    alloc: Global,
    service: &mut Service,
    context: &mut ServiceContext<S, F, C>,
    archive: &mut A,
    core: Core,
) -> io::Result<Core>
where
    R: Runtime + Eprint,
    S: FetchSeveral + ReadFiles + Send + Drop,
    F: Device + Send + Drop,
    A: Archive<F>,
    C: Configuration + Send + Drop,
    requires { IsOfService F.tells F.contents core context.old.journal.file }
    ensures { IfOk result (IsLater core) }
{
    let mut core = core;
    for _turn in rt.forever() {
        let (later, ending) = serve_once(rt, alloc, service, context, core)?;
        if ending == Ending::Quit {
            return Ok(later);
        }
        context.remember_names(rt, alloc);
        core = continued(rt, alloc, later, service, context, archive)?;
    }
    unreachable!()
}

/// Serves over one desk. It fails where its journal is broken.
fn serve_once<R, S, F, C>(
    rt: &R,
    alloc: Global,
    service: &Service,
    context: &mut ServiceContext<S, F, C>,
    core: Core,
) -> io::Result<(Core, Ending)>
where
    R: Runtime + Eprint,
    S: FetchSeveral + ReadFiles + Send + Drop,
    F: Device + Send + Drop,
    C: Configuration + Send + Drop,
    requires { IsOfService F.tells F.contents core context.old.journal.file }
    ensures later { IfOk result (λ r. IsLater core r.0) }
    ensures file { IfOk result (λ r. IsOfService F.tells F.contents r.0 context.new.journal.file) }
{
    let seats = u64::from(SEATS);
    let ended = serve_desk::<R, Brand, Brand, Brand, S, F, C>(
        rt,
        alloc,
        service,
        context,
        core,
        Blank::new(seats),
        Blank::new(seats),
        Log::new(),
    );
    match ended {
        Ok((core, Ending::Broken)) => {
            drop(core);
            Err(io::Error::other("the journal cannot be written"))
        }
        other => other,
    }
}
