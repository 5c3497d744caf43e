//! The service over a journal in etcd: it stands by until nobody leads, and then leads.
use crate::command::Asked;
use crate::end::End;
use crate::instance::Instance;
use crate::leading::lead;
use crate::running::tell_who_is_missed;
use crate::standing_by::{TIMES, answer_then_quit, stand_by};
use command_faults::Fault;
use etcd_answers::Granted;
use etcd_client::{EtcdClient, Watch, grant, keep_lease, revoke};
use etcd_journal::{Opened, open};
use event_loops::{Gate, Runtime};
use log::{info, warn};
use logfmt::Logfmt;
use serve_configuration::{ConfigurationFile, Devices};
use service_tasks::Service;
use standby::Followed;
use std::alloc::{AllocError, Global};
use std::fs::File;
use std::net::TcpListener;
use std::rt::Files;
use std::sync::{Arc, Wait};
use std::time::Clock;
use std::{io, thread};

/// What a service begins with.
#[derive(Drop)]
pub(crate) struct Begun<R> {
    pub(crate) service: Service,
    pub(crate) configuration: ConfigurationFile,
    pub(crate) listener: TcpListener,
    pub(crate) device: Devices<R>,
}

/// What a turn of standing by and leading comes to.
#[derive(Drop)]
enum Led<R> {
    /// Another was faster, or it is not known who leads.
    Lost(Begun<R>),
    /// It was told to end, or leads no more.
    Ended(Result<End, Fault>),
}

/// Stands by until nobody leads, leads, and serves until the service is to end, or another leads.
pub(crate) fn serve_in_etcd<R>(
    rt: &R,
    instance: &Instance,
    asked: &Asked<'_>,
    begun: Begun<R>,
) -> Result<End, Fault>
where
    R: Runtime + Files<File = File> + Print + Eprint,
{
    log_standing_by(rt, &begun.listener);
    tell_who_is_missed(rt, &begun.service);
    let mut begun = begun;
    let mut is_behind = false;
    for _ in rt.forever() {
        match turn(rt, instance, asked, begun, is_behind) {
            Led::Lost(again) => {
                begun = again;
                is_behind = true;
            }
            Led::Ended(ended) => return ended,
        }
    }
    unreachable!()
}

/// Stands by until nobody leads, and leads if no other is faster.
fn turn<R>(
    rt: &R,
    instance: &Instance,
    asked: &Asked<'_>,
    begun: Begun<R>,
    is_behind: bool,
) -> Led<R>
where
    R: Runtime + Files<File = File> + Print + Eprint,
{
    match stand_by(rt, instance, &begun.listener, is_behind) {
        Ok(Followed::Free) => claim(rt, instance, asked, begun),
        Ok(Followed::Quits) => {
            drop(begun);
            Led::Ended(Ok(End::Done))
        }
        Err(error) => {
            drop(begun);
            Led::Ended(Err(Fault::Machine(error)))
        }
    }
}

/// Leads under a lease, where one is granted. That none is granted is told once, until somebody leads.
fn claim<R>(rt: &R, instance: &Instance, asked: &Asked<'_>, begun: Begun<R>) -> Led<R>
where
    R: Runtime + Files<File = File> + Print + Eprint,
{
    match granted(rt, instance) {
        Ok(Some(under)) => lead_under(rt, instance, asked, begun, under),
        Ok(None) => {
            tell_refused(rt, instance);
            Led::Lost(begun)
        }
        Err(error) => {
            drop(begun);
            Led::Ended(Err(error.into()))
        }
    }
}

/// A lease, who watches it, who asks under it and who keeps it alive.
#[derive(Drop)]
struct Under<R> {
    granted: Granted,
    watch: Arc<Watch>,
    client: EtcdClient<R>,
    keeper: EtcdClient<R>,
}

/// Asks for a lease. None where it is not known whether there is one.
fn granted<R>(rt: &R, instance: &Instance) -> Result<Option<Under<R>>, AllocError>
where
    R: Runtime,
{
    let watch = watch_of(instance.alloc)?;
    let keeper = instance.keeper(rt, &watch)?;
    match instance.client(rt, &watch) {
        Ok(client) => granted_to(instance, watch, client, keeper),
        Err(error) => {
            drop((watch, keeper));
            Err(error)
        }
    }
}

/// Asks for a lease by this client.
fn granted_to<R: Runtime>(
    instance: &Instance,
    watch: Arc<Watch>,
    client: EtcdClient<R>,
    keeper: EtcdClient<R>,
) -> Result<Option<Under<R>>, AllocError> {
    let mut client = client;
    match grant(instance.alloc, &mut client, instance.seconds()) {
        Ok(Some(granted)) => Ok(Some(Under {
            granted,
            watch,
            client,
            keeper,
        })),
        Ok(None) => {
            drop((watch, client, keeper));
            Ok(None)
        }
        Err(error) => {
            drop((watch, client, keeper));
            Err(error)
        }
    }
}

fn watch_of(alloc: Global) -> Result<Arc<Watch>, AllocError> {
    Ok(Arc::new(alloc, Watch::new())?)
}

/// Leads as long as the lease is kept alive, and gives it up then, so that another may lead at once.
fn lead_under<R>(
    rt: &R,
    instance: &Instance,
    asked: &Asked<'_>,
    begun: Begun<R>,
    under: Under<R>,
) -> Led<R>
where
    R: Runtime + Files<File = File> + Print + Eprint,
{
    let Under {
        granted,
        watch,
        client,
        keeper,
    } = under;
    let mut keeper = keeper;
    let ((), led) = thread::join(
        rt,
        || keep_lease(rt, &mut keeper, granted.lease, granted.seconds, &watch),
        || {
            let led = open_and_lead(rt, instance, asked, begun, client, granted);
            watch.end();
            led
        },
    );
    let _ = revoke(instance.alloc, &mut keeper, granted.lease);
    if watch.is_refused() {
        tell_refused(rt, instance);
    }
    drop((keeper, watch));
    led
}

/// Tells that this instance cannot lead, once until somebody does.
fn tell_refused<R: Wait + Clock + Eprint + Copy>(rt: &R, instance: &Instance) {
    if instance.standing.refuse(rt) {
        log_refused(rt);
    }
}

/// Reads what stands, where no other is faster, and serves over it.
fn open_and_lead<R>(
    rt: &R,
    instance: &Instance,
    asked: &Asked<'_>,
    begun: Begun<R>,
    client: EtcdClient<R>,
    granted: Granted,
) -> Led<R>
where
    R: Runtime + Files<File = File> + Print + Eprint,
{
    match opened(rt, instance, &begun.listener, client, granted) {
        Ok(Some(opened)) => {
            log_leading(rt, &opened);
            Led::Ended(lead(rt, instance, asked, begun, opened))
        }
        Ok(None) => Led::Lost(begun),
        Err(error) => {
            drop(begun);
            Led::Ended(Err(Fault::Machine(error)))
        }
    }
}

/// What stands in the journal, where this instance leads. Requests are answered as by who stands by meanwhile.
fn opened<R>(
    rt: &R,
    instance: &Instance,
    listener: &TcpListener,
    client: EtcdClient<R>,
    granted: Granted,
) -> io::Result<Option<Opened<EtcdClient<R>>>>
where
    R: Runtime + Files<File = File> + Print + Eprint,
{
    let gate = match Gate::new(instance.alloc, instance.connections, TIMES) {
        Ok(gate) => gate,
        Err(error) => {
            drop(client);
            return Err(error.into());
        }
    };
    let standing = &instance.standing;
    let (served, opened) = thread::join(
        rt,
        || answer_then_quit(rt, standing, &gate, listener),
        || open_then_stop(rt, instance, client, granted, &gate),
    );
    match served {
        Ok(()) => opened,
        Err(error) => {
            drop(opened);
            Err(error)
        }
    }
}

fn open_then_stop<R>(
    rt: &R,
    instance: &Instance,
    client: EtcdClient<R>,
    granted: Granted,
    gate: &Gate,
) -> io::Result<Option<Opened<EtcdClient<R>>>>
where
    R: Runtime + Files<File = File> + Print + Eprint,
{
    let opened = open_under(rt, instance, client, granted);
    gate.stop();
    opened
}

fn open_under<R>(
    rt: &R,
    instance: &Instance,
    client: EtcdClient<R>,
    granted: Granted,
) -> io::Result<Option<Opened<EtcdClient<R>>>>
where
    R: Runtime,
{
    let term = match instance.new_term(rt) {
        Ok(term) => term,
        Err(error) => {
            drop(client);
            return Err(error);
        }
    };
    match open(
        instance.alloc,
        instance.prefix(),
        term.as_str(),
        granted.lease,
        instance.keep,
        client,
    ) {
        Ok(opened) => Ok(opened),
        Err(error) => Err(error.into()),
    }
}

fn log_standing_by<R: Clock + Eprint + Copy>(rt: &R, listener: &TcpListener) {
    if let Ok(here) = listener.local_addr() {
        info!(Logfmt(*rt); address:% = here; "stands by");
    }
}

fn log_refused<R: Clock + Eprint + Copy>(rt: &R) {
    warn!(Logfmt(*rt); "etcd grants no lease, forbids what is asked, or does not answer: nobody leads, and it is asked again");
}

fn log_leading<R: Clock + Eprint + Copy, E>(rt: &R, opened: &Opened<E>) {
    let epoch = opened.journal.seat.going;
    let blocks = opened.journal.seat.next;
    info!(Logfmt(*rt); epoch, blocks; "leads");
}
