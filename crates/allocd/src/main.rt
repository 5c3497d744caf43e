//! The program `allocd`: what it writes to standard output is a stated function of what it reads from standard input, or of the files of an
//! audit, a table of books or a seal; but for `session`, `serve` and `agent`.
#![tactic(auto)]

mod fleet_session;

use agent_command::agent;
use command_words::{Asked, read_words};
use event_loops::Runtime;
use fleet_session::run_session;
use log_queue::{Queued, start_log};
use offline_commands::{
    Ending, Status, Stop, audit_files, books_of_files, run, seal_file, write_last, write_stop,
};
use scrape_client::{Lookups, start_lookups};
use serve_command::serve;
use serve_configuration::{EtcdLookups, Machine, etcd_lookups};
use std::alloc::Global;
use std::env::Args;
use std::fs::File;
use std::io::{ErrorKind, Input};
use std::process::ExitCode;
use std::rt::Files;
use std::sync::Arc;
use std::{env, io};

/// What is told of arguments that are no text.
const NO_TEXT: &str = "\
error: an argument is no text in UTF-8

For more information, try 'allocd --help'.
";

fn main(rt: HostRuntime) -> ExitCode {
    match words_of(rt.alloc(), env::args(&rt)) {
        Ok(words) => match read_words(rt.alloc(), words.as_slice()) {
            Ok(Asked::Serve(options)) => match start_log(&rt) {
                Ok(queue) => match start_lookups(&rt) {
                    Ok(lookups) => match etcd_lookups(&rt, &options) {
                        Ok(etcd) => {
                            let machine = machine_of(rt, &lookups, &etcd);
                            serve(&rt, &Queued::new(rt, &queue), machine, &options, &queue)
                        }
                        Err(_) => stopped_without_memory(&rt),
                    },
                    Err(_) => stopped_without_memory(&rt),
                },
                Err(_) => stopped_without_memory(&rt),
            },
            Ok(Asked::Agent(config)) => match start_log(&rt) {
                Ok(queue) => match start_lookups(&rt) {
                    Ok(lookups) => agent(&rt, &Queued::new(rt, &queue), &lookups, config, &queue),
                    Err(_) => stopped_without_memory(&rt),
                },
                Err(_) => stopped_without_memory(&rt),
            },
            Ok(asked) => run_asked(&rt, &asked),
            Err(_) => stopped_without_memory(&rt),
        },
        Err(error) => match error.kind() {
            ErrorKind::OutOfMemory => stopped_without_memory(&rt),
            _ => status_of(refuse(&rt, NO_TEXT)),
        },
    }
}

/// What a service has of this machine.
fn machine_of<'a>(
    host: HostRuntime,
    lookups: &'a Arc<Lookups>,
    etcd: &'a Option<EtcdLookups>,
) -> Machine<'a> {
    match etcd {
        Some(etcd) => Machine {
            host,
            lookups,
            etcd: Some(etcd),
        },
        None => Machine {
            host,
            lookups,
            etcd: None,
        },
    }
}

/// The arguments behind the program's name, where each is a text.
fn words_of(alloc: Global, arguments: io::Result<Args>) -> io::Result<Vec<String>> {
    let mut words = Vec::new(alloc);
    for word in arguments?.skip(1) {
        words.push(word)?;
    }
    Ok(words)
}

/// Does what the words ask for, unless it is to serve or to be an agent.
fn run_asked<R>(rt: &R, asked: &Asked<'_>) -> ExitCode
where
    R: Runtime + Files<File = File> + Input + Print + Eprint,
{
    let alloc = rt.alloc();
    let mut writer = io::writer(rt);
    match asked {
        Asked::Answer(command) => status_of(run(alloc, *command, &mut rt.reader(), &mut writer)),
        Asked::Session => status_of(run_session(rt, alloc, &mut rt.reader(), &mut writer)),
        Asked::Audit(paths) => status_of(audit_files(rt, alloc, paths.as_slice(), &mut writer)),
        Asked::Books(paths) => {
            status_of(books_of_files(rt, alloc, paths.as_slice(), &mut writer))
        }
        Asked::Seal(path) => status_of(seal_file(rt, alloc, path, &mut writer)),
        // They are served by `main`, where the program's own handle may wait.
        Asked::Serve(_) | Asked::Agent(_) => status_of(Ending::Answered(Status::Unreadable)),
        Asked::Shown(text) => {
            let ending = Ending::Answered(Status::Done);
            status_of(write_last(&mut writer, text.as_bytes(), ending))
        }
        Asked::Refused(text) => status_of(refuse(rt, text.as_str())),
    }
}

/// Tells on standard error what is wrong with the words.
fn refuse<R: Eprint>(rt: &R, text: &str) -> Ending {
    // Nobody can be told that a text was not written.
    let _ = rt.eprint(text);
    Ending::Answered(Status::Unreadable)
}

fn stopped_without_memory<R: Print>(rt: &R) -> ExitCode {
    status_of(write_stop(&mut io::writer(rt), &[], Stop::Memory))
}

fn status_of(ending: Ending) -> ExitCode {
    ExitCode::from(ending.exit_status())
}
