//! The command: what its configuration asks for, and what it tells of it.
use crate::places::{Places, places_at};
use crate::running::run;
use crate::state_file::memory_at;
use agent_core::Memory;
use command_faults::{Fault, status_of, tell};
use event_loops::Runtime;
use log::error;
use log_queue::LogQueue;
use logfmt::Logfmt;
use scrape_client::Lookups;
use service_settings::Address;
use std::fs::File;
use std::io;
use std::net::{Ipv4Addr, SocketAddr, TcpListener};
use std::process::ExitCode;
use std::rt::Files;
use std::sync::Wait;
use std::time::{Clock, Duration};

/// How long the end waits for the last lines to be read, in milliseconds.
const LAST_LINES: u64 = 1_000;

/// Does what the configuration at a path asks for, and gives the exit status: 2 where the agent is not told what to do, 3 where the machine failed
/// it. What is logged is written to `queued`, a handle whose standard error is the queue. The last fault is told past that, by `rt`, if somebody has
/// read all before.
pub fn agent<R, Q>(
    rt: &R,
    queued: &Q,
    lookups: &Lookups,
    config: &str,
    queue: &LogQueue,
) -> ExitCode
where
    R: Wait + Clock + Eprint + Copy,
    Q: Runtime + Files<File = File> + Eprint,
{
    let ended = run_at(queued, lookups, config);
    let is_read = queue.close(rt, Duration::from_millis(LAST_LINES));
    match ended {
        Ok(()) => ExitCode::from(0),
        Err(fault) => {
            if is_read {
                tell(rt, "agent", &fault);
            }
            status_of(&fault)
        }
    }
}

/// Runs the agent of a configuration.
fn run_at<R>(rt: &R, lookups: &Lookups, config: &str) -> Result<(), Fault>
where
    R: Runtime + Files<File = File> + Eprint,
{
    let places = places_at(rt, config)?;
    let ended = match begun(rt, &places) {
        Ok((listener, memory)) => match run(rt, lookups, &listener, &places, memory) {
            Ok(()) => Ok(()),
            Err(error) => Err(Fault::Machine(error)),
        },
        Err(fault) => Err(fault),
    };
    drop(places);
    ended
}

/// The listener, and what the state file says.
fn begun<R>(rt: &R, places: &Places) -> Result<(TcpListener, Memory), Fault>
where
    R: Runtime + Files<File = File> + Eprint,
{
    let here = socket_of(places.settings.listen);
    match TcpListener::bind(rt, here) {
        Ok(listener) => {
            let memory = memory_at(rt, places.settings.state.as_str())?;
            Ok((listener, memory))
        }
        Err(error) => {
            log_unheard(rt, here, &error);
            Err(Fault::Machine(error))
        }
    }
}

fn log_unheard<R: Clock + Eprint + Copy>(rt: &R, here: SocketAddr, error: &io::Error) {
    error!(Logfmt(*rt); address:% = here; "nothing can listen there: {error}");
}

fn socket_of(address: Address) -> SocketAddr {
    let [a, b, c, d] = address.octets;
    SocketAddr::from((Ipv4Addr::new(a, b, c, d), address.port))
}
