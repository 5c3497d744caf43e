//! What a command line asks for.
ghost use Rattle.std.specs.Prelude.{◌≡◌, ◌⊎◌, None, Some, true, IfOk, IfSome, codes, map, option_map, string_bytes};
ghost use Rattle.clap.specs.Words.{all_of, found_of, rows_of, subcommand_rows_of};
ghost use Rattle.command_words.specs.Asked.{Answers, agents_by, are_taken, asked_by, asked_in, audits_by, books_by, command_in, is_set as is_set_by, named, number_or_zero, plans_alone_by, plans_by, said, seals_by, serves_by, spread_by, text_of};

use crate::commands::program;
use crate::refusal::{no_command, no_spread, refused};
use clap::ArgMatches;
use std::alloc::{AllocError, Global};

/// What a command line asks for.
#[derive(Debug, Drop)]
pub enum Asked<'a> {
    /// A command that answers standard input.
    Answer(InputCommand),
    Session,
    /// The paths of the journals of an audit, one at the least.
    Audit(Vec<&'a str>),
    /// The paths of the journals whose books are told, one at the least.
    Books(Vec<&'a str>),
    /// The path of a journal that is to have its digests anew.
    Seal(&'a str),
    Serve(ServeOptions<'a>),
    /// The path of the configuration of an agent.
    Agent(&'a str),
    /// Help or the version, for standard output.
    Shown(String),
    /// What is wrong with the words, for standard error.
    Refused(String),
}

/// The commands that answer one input.
#[derive(Clone, Copy, Debug, PartialEq, Eq)]
pub enum InputCommand {
    Check,
    Plan,
    /// A plan that evens out what the collectors have.
    Spread(SpreadOptions),
    Relabel,
    Replay,
}

/// The options of `allocd plan --spread`.
#[derive(Clone, Copy, Debug, PartialEq, Eq)]
pub struct SpreadOptions {
    /// So many percent more than where the loads are the most even a collector may have, rounded up.
    pub slack: u32,
    /// How many bins in a row a collector has.
    pub jobs: u32,
    /// How many items move for that at the most.
    pub most_moves: Option<u32>,
}

/// The options of `allocd serve`.
#[derive(Clone, Copy, Debug, PartialEq, Eq)]
pub struct ServeOptions<'a> {
    /// The path of the configuration file.
    pub config: &'a str,
    /// In place of the configuration's `listen`.
    pub listen: Option<&'a str>,
    /// In place of the configuration's `journal`.
    pub journal: Option<&'a str>,
    /// Whether the configuration is only to be read and checked.
    pub check_config: bool,
}

/// Reads the words behind the program's name: what `clap` takes for a command is asked for, and everything else is shown or refused.
pub fn read_words<'a>(alloc: Global, words: &'a [String]) -> Result<Asked<'a>, AllocError>
    ensures taken { are_taken (map string_bytes words.entry.now) ≡ true → IfOk result (λ a. said a ≡ asked_in (map string_bytes words.entry.now)) }
    ensures others { IfOk result (λ a. (said a ≡ None) ⊎ (said a ≡ asked_in (map string_bytes words.entry.now))) }
    ensures alone { IfSome (command_in words.entry.now) (λ c. IfOk result (λ a. said a ≡ Some (Answers c))) }
{
    let command = program(alloc)?;
    match command.try_get_matches_from(words) {
        Ok(matches) => asked_of(alloc, &matches),
        Err(error) => refused(alloc, words, &error),
    }
}

/// What the matches ask for.
fn asked_of<'a>(alloc: Global, matches: &ArgMatches<'a>) -> Result<Asked<'a>, AllocError>
    ensures { IfOk result (λ a. said a ≡ asked_by (subcommand_rows_of matches.now)) }
{
    match matches.subcommand() {
        Some((name, matches)) => command_named(alloc, name, matches),
        None => no_command(alloc),
    }
}

fn command_named<'a>(
    alloc: Global,
    name: &str,
    matches: &ArgMatches<'a>,
) -> Result<Asked<'a>, AllocError>
    ensures { IfOk result (λ a. said a ≡ named name.now (rows_of (found_of matches.now))) }
{
    match name {
        "check" => Ok(Asked::Answer(InputCommand::Check)),
        "plan" => plan_of(alloc, matches),
        "relabel" => Ok(Asked::Answer(InputCommand::Relabel)),
        "replay" => Ok(Asked::Answer(InputCommand::Replay)),
        "session" => Ok(Asked::Session),
        "audit" => audit_of(alloc, matches),
        "books" => books_of(alloc, matches),
        "seal" => seal_of(alloc, matches),
        "serve" => serve_of(alloc, matches),
        "agent" => agent_of(alloc, matches),
        _ => no_command(alloc),
    }
}

fn plan_of<'a>(alloc: Global, matches: &ArgMatches<'a>) -> Result<Asked<'a>, AllocError>
    ensures { IfOk result (λ a. said a ≡ plans_by (rows_of (found_of matches.now))) }
{
    match matches.get_str("spread") {
        Some(slack) => {
            let options = spread_options(
                slack,
                matches.get_str("jobs"),
                matches.get_str("most-moves"),
            );
            Ok(Asked::Answer(InputCommand::Spread(options)))
        }
        None => plan_alone(alloc, matches),
    }
}

/// A plan without a spread, of which no option says more.
fn plan_alone<'a>(alloc: Global, matches: &ArgMatches<'a>) -> Result<Asked<'a>, AllocError>
    ensures { IfOk result (λ a. said a ≡ plans_alone_by (rows_of (found_of matches.now))) }
{
    match matches.get_str("jobs") {
        Some(_) => no_spread(alloc, "jobs"),
        None => match matches.get_str("most-moves") {
            Some(_) => no_spread(alloc, "most-moves"),
            None => Ok(Asked::Answer(InputCommand::Plan)),
        },
    }
}

/// The options of these values.
fn spread_options(slack: &str, jobs: Option<&str>, most_moves: Option<&str>) -> SpreadOptions
    ensures { result ≡ spread_by slack.now (text_of jobs.entry) (text_of most_moves.entry) }
{
    SpreadOptions {
        slack: number_in(slack),
        jobs: match jobs {
            Some(text) => number_in(text),
            None => 1,
        },
        most_moves: match most_moves {
            Some(text) => Some(number_in(text)),
            None => None,
        },
    }
}

/// The number that an option's value writes. The parser has seen to it that it does.
fn number_in(text: &str) -> u32
    ensures { result ≡ number_or_zero text.now }
{
    text.parse().unwrap_or(0)
}

fn audit_of<'a>(alloc: Global, matches: &ArgMatches<'a>) -> Result<Asked<'a>, AllocError>
    ensures { IfOk result (λ a. said a ≡ audits_by (rows_of (found_of matches.now))) }
{
    match paths_of(alloc, matches)? {
        Some(paths) => Ok(Asked::Audit(paths)),
        None => no_command(alloc),
    }
}

fn books_of<'a>(alloc: Global, matches: &ArgMatches<'a>) -> Result<Asked<'a>, AllocError>
    ensures { IfOk result (λ a. said a ≡ books_by (rows_of (found_of matches.now))) }
{
    match paths_of(alloc, matches)? {
        Some(paths) => Ok(Asked::Books(paths)),
        None => no_command(alloc),
    }
}

/// The paths of the files that are named, if some are.
fn paths_of<'a>(alloc: Global, matches: &ArgMatches<'a>) -> Result<Option<Vec<&'a str>>, AllocError>
    ensures { IfOk result (λ o. option_map (λ v. map (λ s. s.now) v.items) o ≡ all_of (codes "FILE") (rows_of (found_of matches.now))) }
{
    match matches.get_strs("FILE") {
        Some(paths) => {
            let mut files = Vec::new(alloc);
            files.extend_from_slice(paths)?;
            Ok(Some(files))
        }
        None => Ok(None),
    }
}

fn seal_of<'a>(alloc: Global, matches: &ArgMatches<'a>) -> Result<Asked<'a>, AllocError>
    ensures { IfOk result (λ a. said a ≡ seals_by (rows_of (found_of matches.now))) }
{
    match matches.get_str("FILE") {
        Some(path) => Ok(Asked::Seal(path)),
        None => no_command(alloc),
    }
}

fn serve_of<'a>(alloc: Global, matches: &ArgMatches<'a>) -> Result<Asked<'a>, AllocError>
    ensures { IfOk result (λ a. said a ≡ serves_by (rows_of (found_of matches.now))) }
{
    match matches.get_str("config") {
        Some(config) => Ok(Asked::Serve(ServeOptions {
            config,
            listen: matches.get_str("listen"),
            journal: matches.get_str("journal"),
            check_config: is_set(matches.get_str("check-config")),
        })),
        None => no_command(alloc),
    }
}

fn agent_of<'a>(alloc: Global, matches: &ArgMatches<'a>) -> Result<Asked<'a>, AllocError>
    ensures { IfOk result (λ a. said a ≡ agents_by (rows_of (found_of matches.now))) }
{
    match matches.get_str("config") {
        Some(config) => Ok(Asked::Agent(config)),
        None => no_command(alloc),
    }
}

/// Whether the text of a flag says that it is used.
fn is_set(text: Option<&str>) -> bool
    ensures { result ≡ is_set_by (option_map (λ s. s.now) text.entry) }
{
    match text {
        Some(word) => word == "true",
        None => false,
    }
}
