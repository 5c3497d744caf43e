//! An instance that stands by.
use crate::instance::Instance;
use etcd_client::Watch;
use event_loops::{Gate, Runtime, Times};
use standby::{Followed, Standing, follow, serve_standing};
use std::net::TcpListener;
use std::sync::Arc;
use std::time::Duration;
use std::{io, thread};

/// How long is waited behind a claim that came to nothing, in milliseconds.
const PAUSE: u64 = 1_000;

/// The limits of time of a connection while an instance stands by. What it answers is short, so that a take-over waits for nobody.
pub(crate) const TIMES: Times = Times {
    idle: 90_000,
    pressed: 2_000,
    request: 25_000,
    last: 300,
    linger: 100,
};

/// Answers requests and reads along, until nobody leads or the instance is to end. Behind a claim that came to nothing it waits a while first.
pub(crate) fn stand_by<R>(
    rt: &R,
    instance: &Instance,
    listener: &TcpListener,
    is_behind: bool,
) -> io::Result<Followed>
where
    R: Runtime + Eprint,
{
    let gate = Gate::new(instance.alloc, instance.connections, TIMES)?;
    let standing = &instance.standing;
    let (served, followed) = thread::join(
        rt,
        || answer_then_quit(rt, standing, &gate, listener),
        || follow_then_stop(rt, instance, &gate, is_behind),
    );
    match served {
        Ok(()) => followed,
        Err(error) => {
            drop(followed);
            Err(error)
        }
    }
}

/// Answers requests until the gate is stopped. Where no server can be, the instance is to end.
pub(crate) fn answer_then_quit<R>(
    rt: &R,
    standing: &Arc<Standing>,
    gate: &Gate,
    listener: &TcpListener,
) -> io::Result<()>
where
    R: Runtime + Eprint,
{
    let served = serve_standing(rt, gate, listener, standing);
    if served.is_err() {
        standing.quit();
    }
    served
}

fn follow_then_stop<R>(
    rt: &R,
    instance: &Instance,
    gate: &Gate,
    is_behind: bool,
) -> io::Result<Followed>
where
    R: Runtime + Eprint,
{
    if is_behind {
        thread::sleep(rt, Duration::from_millis(PAUSE));
    }
    let followed = follow_on(rt, instance);
    gate.stop();
    followed
}

fn follow_on<R>(rt: &R, instance: &Instance) -> io::Result<Followed>
where
    R: Runtime + Eprint,
{
    let watch = Arc::new(instance.alloc, Watch::new())?;
    let mut client = instance.client(rt, &watch)?;
    Ok(follow(rt, instance.prefix(), &mut client, &instance.standing))
}
