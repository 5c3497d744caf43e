//! A request that is waited for.
ghost use Rattle.std.specs.Prelude.{◌≤◌, IfOk, length};

use crate::ask::{Answer, Ask};
use crate::beginning::deadline_of;
use crate::blocking::answer_until;
use crate::lookups::{Found, Lookups};
use http_get::{Cause, address_of, name_of};
use std::alloc::{AllocError, AllocGlobal};
use std::net::{Net, SocketAddr};
use std::random::RandomSource;
use std::sync::Wait;
use std::thread;
use std::time::{Clock, Duration, Instant};

/// How long is waited between two looks at what a look-up came to, in milliseconds.
const LOOK_MILLIS: u64 = 5;

/// Asks over a new connection. A name is looked up first, on the threads of the look-ups, which nobody else is to ask meanwhile. No redirect is
/// followed.
pub fn ask_within<R>(rt: &R, lookups: &Lookups, ask: &Ask<'_>) -> Result<Answer, Cause>
where
    R: Wait + Clock + Net + RandomSource + AllocGlobal,
    ensures { IfOk result (λ answer. length answer.body ≤ ask.now.longest) }
{
    match answer_to(rt, lookups, ask) {
        Ok(answer) => within(answer, ask.longest),
        Err(cause) => Err(cause),
    }
}

/// An answer whose body has so many bytes at the most.
fn within(answer: Answer, longest: usize) -> Result<Answer, Cause>
    ensures { IfOk result (λ answer. length answer.body ≤ longest) }
{
    if answer.body.len() > longest {
        return Err(Cause::TooLong);
    }
    Ok(answer)
}

fn answer_to<R>(rt: &R, lookups: &Lookups, ask: &Ask<'_>) -> Result<Answer, Cause>
where
    R: Wait + Clock + Net + RandomSource + AllocGlobal,
{
    let deadline = deadline_of(rt, ask.limit)?;
    let address = host_of(rt, lookups, ask.address, deadline)?;
    answer_until(rt, deadline, address, ask)
}

/// The address of a host.
fn host_of<R: Wait + Clock + AllocGlobal>(
    rt: &R,
    lookups: &Lookups,
    host: &str,
    deadline: Instant,
) -> Result<SocketAddr, Cause> {
    if let Some(address) = address_of(host) {
        return Ok(SocketAddr::V4(address));
    }
    match name_of(host) {
        Some((name, port)) => match lookups.ask(rt, rt.alloc(), name, port) {
            Ok(ticket) => found_until(rt, lookups, ticket, deadline),
            Err(AllocError) => Err(Cause::Memory),
        },
        None => Err(Cause::NoAddress),
    }
}

/// What a look-up comes to until a deadline.
fn found_until<R: Wait + Clock>(
    rt: &R,
    lookups: &Lookups,
    ticket: u64,
    deadline: Instant,
) -> Result<SocketAddr, Cause> {
    for _ in rt.forever() {
        match lookups.found(rt) {
            Some(found) if found.ticket == ticket => return address_in(found),
            Some(_) => {}
            None if is_over(rt, deadline) => {
                lookups.give_up(rt, ticket);
                return Err(Cause::TimedOut);
            }
            None => thread::sleep(rt, Duration::from_millis(LOOK_MILLIS)),
        }
    }
    unreachable!()
}

fn address_in(found: Found) -> Result<SocketAddr, Cause> {
    match found.address {
        Some(address) => Ok(address),
        None => Err(Cause::NoName),
    }
}

/// Whether a deadline is over, or no clock tells.
fn is_over(rt: &impl Clock, deadline: Instant) -> bool {
    match Instant::now(rt) {
        Ok(now) => deadline <= now,
        Err(_) => true,
    }
}
