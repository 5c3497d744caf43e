//! The commands of `allocd`, with their help.
ghost use Rattle.std.specs.Prelude.{◌≡◌, IfOk};
ghost use Rattle.clap.specs.Words.{app_of, new_app};
ghost use Rattle.command_words.specs.Commands.{agent as agent_app, alone as alone_app, audit as audit_app, books as books_app, plan as plan_app, program as program_app, seal as seal_app, serve as serve_app, with_others as with_others_app, with_readers as with_readers_app};

use crate::limits::{GREATEST_NUMBER, MOST_BINS_IN_A_ROW, MOST_PERCENT};
use crate::options::{file, files, flag, number_option, option, required_option};
use clap::Command;
use std::alloc::{AllocError, Global};

/// The program's version.
pub const VERSION: &str = "0.1.0";

const PROGRAM: &str = "Allocates the scrape targets of Prometheus to its collectors";

const PROGRAM_ENDS: &str = "\
All commands but audit, books, seal, serve and agent read standard input; docs/understand/FORMATS.md tells what they read and write.

Exit status of all commands:
  0  it is done, or what was to be judged is right
  1  it was read, and is refused or not right
  2  the words or the input are wrong
  3  no memory was left, or a read or a write failed
What each means for a command is told by: allocd help COMMAND";

const CHECK: &str = "Says whether a plan is best, or its first fault";

const CHECK_ENDS: &str = "\
Standard input: the document of an instance and a plan. Standard output: one line.

Exit status:
  0  the plan is best
  1  the plan is refused
  2  the words are wrong, or the input is no such document
  3  no memory was left, or a read or a write failed";

const PLAN: &str = "Finds a best plan, with the prices that prove it";

const PLAN_ENDS: &str = "\
Standard input: the document of an instance. Standard output: the document of the instance and the plan; with --spread also its caps, and
what proves that they cost no coverage.

Exit status:
  0  the plan is written
  2  the words are wrong, or the input is no such document
  3  no memory was left, or a read or a write failed";

const SPREAD: &str =
    "Evens the collectors out, to at most so many percent above the most even loads, rounded up";

const JOBS: &str = "How many bins in a row a collector has, with --spread [default: 1]";

const MOST_MOVES: &str =
    "At most so many items move to even the collectors out, with --spread [default: any number]";

const RELABEL: &str = "Says what relabelling rules make of a label set";

const RELABEL_ENDS: &str = "\
Standard input: a document of labels and rules. Standard output: the labels that come of them, or the rule that drops the target.

Exit status:
  0  the labels are kept, or the target is dropped
  1  the name of a label, or a rule, is refused
  2  the words are wrong, or the input is no such document
  3  no memory was left, or a read or a write failed";

const REPLAY: &str = "Says what the allocator answers to each of some events";

const REPLAY_ENDS: &str = "\
Standard input: a configuration and events, a line each. Standard output: the answer to each.

Exit status:
  0  each event is answered, refusals among the answers or not
  2  the words are wrong, or a line is not read: the last line that is written has its number
  3  no memory was left, or a read or a write failed";

const SESSION: &str = "Runs a whole fleet on this machine, over loopback";

const SESSION_ENDS: &str = "\
Standard input: the document of a session. Standard output: what its rounds came to.

Exit status:
  0  the rounds are done
  1  the session is refused, as the last line says
  2  the words are wrong, or the input is no such document
  3  no memory was left, or a socket, a read or a write failed";

const AUDIT: &str = "Says whether each of some journals goes on where the one before it ended";

const AUDIT_ENDS: &str = "\
Standard output: a line for each file, and one of all or of the first fault.

Exit status:
  0  the journals are consistent
  1  they are not, as the last line says
  2  the words are wrong, or a file is too long
  3  a file is not read, as standard error says, no memory was left, or a write failed";

const JOURNALS: &str = "The journals, in their order";

const BOOKS: &str = "Tells what is booked of each target in some journals";

const BOOKS_ENDS: &str = "\
Standard output: an object of JSON in a line for each target that a journal knows.

Exit status:
  0  each journal is read
  2  the words are wrong, a journal is not read, as the last line says, or a file is too long
  3  a file is not read, as standard error says, no memory was left, or a write failed";

const SEAL: &str = "Writes a journal that somebody mended, with its digests anew";

const SEAL_ENDS: &str = "\
Standard output: the journal, whose first line says that it was sealed by hand. The file stays as it is.

Exit status:
  0  the journal is written
  2  the words are wrong, a line is not read, as the last line says, or the file is too long
  3  the file is not read, as standard error says, no memory was left, or a write failed";

const MENDED: &str = "The journal, with digests or without";

const SERVE: &str = "Serves target lists to collectors over HTTP, and books what they report";

const CONFIG: &str =
    "The configuration, in JSON: the jobs of Prometheus, and the settings of the service";

const LISTEN: &str =
    "Where HTTP is served: dotted IPv4 or localhost [default: the configuration's, else 127.0.0.1:8080]";

const JOURNAL: &str =
    "Where each event is written before it is answered [default: the configuration's, else none]";

const CHECK_CONFIG: &str =
    "Reads the configuration, says what is wrong with it, and serves nothing";

const SERVE_ENDS: &str = "\
An option is written --NAME VALUE or --NAME=VALUE; the last of a name counts. Standard error: the log.

Exit status:
  0  it was told to end, or the configuration is valid
  2  the words, the configuration or the journal are wrong, as standard error says
  3  no memory was left, or a socket or a file failed";

const AGENT: &str = "Stands between the allocator and a Prometheus, and reports what that scraped";

const AGENT_CONFIG: &str =
    "The configuration, in JSON: a name, the allocator, the Prometheus and the state file";

const AGENT_ENDS: &str = "\
docs/operate/AGENT.md tells what the configuration may say. Standard error: the log.

Exit status:
  2  the words, the configuration or the state file are wrong, as standard error says
  3  no memory was left, or a socket or a file failed";

/// The program with its commands.
pub(crate) fn program<'a>(alloc: Global) -> Result<Command<'a>, AllocError>
    ensures { IfOk result (λ c. app_of c ≡ program_app) }
{
    let command = with_readers(alloc, alone(alloc)?)?;
    with_others(alloc, command)
}

/// The program without commands.
fn alone<'a>(alloc: Global) -> Result<Command<'a>, AllocError>
    ensures { IfOk result (λ c. app_of c ≡ alone_app) }
{
    told(alloc, "allocd", PROGRAM, PROGRAM_ENDS)
        .version(VERSION)
        .no_binary_name(true)
        .args_override_self(true)
        .subcommand_required(true)
        .arg_required_else_help(true)
        .propagate_version(true)
        .bin_name("allocd")
}

/// With the commands that read standard input.
fn with_readers<'a>(alloc: Global, command: Command<'a>) -> Result<Command<'a>, AllocError>
    ensures { IfOk result (λ c. app_of c ≡ with_readers_app (app_of command.entry)) }
{
    command
        .subcommand(told(alloc, "check", CHECK, CHECK_ENDS))?
        .subcommand(plan(alloc)?)?
        .subcommand(told(alloc, "relabel", RELABEL, RELABEL_ENDS))?
        .subcommand(told(alloc, "replay", REPLAY, REPLAY_ENDS))?
        .subcommand(told(alloc, "session", SESSION, SESSION_ENDS))
}

/// With the commands that read files.
fn with_others<'a>(alloc: Global, command: Command<'a>) -> Result<Command<'a>, AllocError>
    ensures { IfOk result (λ c. app_of c ≡ with_others_app (app_of command.entry)) }
{
    command
        .subcommand(audit(alloc)?)?
        .subcommand(books(alloc)?)?
        .subcommand(seal(alloc)?)?
        .subcommand(serve(alloc)?)?
        .subcommand(agent(alloc)?)
}

fn plan<'a>(alloc: Global) -> Result<Command<'a>, AllocError>
    ensures { IfOk result (λ c. app_of c ≡ plan_app) }
{
    told(alloc, "plan", PLAN, PLAN_ENDS)
        .arg(number_option(alloc, "spread", "PERCENT", SPREAD, 0, MOST_PERCENT))?
        .arg(number_option(alloc, "jobs", "NUMBER", JOBS, 1, MOST_BINS_IN_A_ROW))?
        .arg(number_option(
            alloc,
            "most-moves",
            "NUMBER",
            MOST_MOVES,
            0,
            GREATEST_NUMBER,
        ))
}

fn audit<'a>(alloc: Global) -> Result<Command<'a>, AllocError>
    ensures { IfOk result (λ c. app_of c ≡ audit_app) }
{
    told(alloc, "audit", AUDIT, AUDIT_ENDS).arg(files(alloc, "FILE", JOURNALS))
}

fn books<'a>(alloc: Global) -> Result<Command<'a>, AllocError>
    ensures { IfOk result (λ c. app_of c ≡ books_app) }
{
    told(alloc, "books", BOOKS, BOOKS_ENDS).arg(files(alloc, "FILE", JOURNALS))
}

fn seal<'a>(alloc: Global) -> Result<Command<'a>, AllocError>
    ensures { IfOk result (λ c. app_of c ≡ seal_app) }
{
    told(alloc, "seal", SEAL, SEAL_ENDS).arg(file(alloc, "FILE", MENDED))
}

fn serve<'a>(alloc: Global) -> Result<Command<'a>, AllocError>
    ensures { IfOk result (λ c. app_of c ≡ serve_app) }
{
    told(alloc, "serve", SERVE, SERVE_ENDS)
        .arg(required_option(alloc, "config", "FILE", CONFIG))?
        .arg(option(alloc, "listen", "ADDRESS:PORT", LISTEN))?
        .arg(option(alloc, "journal", "FILE", JOURNAL))?
        .arg(flag(alloc, "check-config", CHECK_CONFIG))
}

fn agent<'a>(alloc: Global) -> Result<Command<'a>, AllocError>
    ensures { IfOk result (λ c. app_of c ≡ agent_app) }
{
    told(alloc, "agent", AGENT, AGENT_ENDS).arg(required_option(
        alloc,
        "config",
        "FILE",
        AGENT_CONFIG,
    ))
}

/// A command that takes nothing, with what its help tells first and last.
fn told<'a>(alloc: Global, name: &'a str, about: &'a str, ends: &'a str) -> Command<'a>
    ensures { app_of result ≡ new_app name.entry.now }
{
    Command::new(alloc, name).about(about).after_help(ends)
}
