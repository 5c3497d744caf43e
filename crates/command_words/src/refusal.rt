//! What is told in place of a command: help, the version, or what is wrong with the words.
ghost use Rattle.std.specs.Prelude.{◌≡◌, None, IfOk, IsErr};
ghost use Rattle.clap.specs.Words.{kind_of};
ghost use Rattle.clap.specs.declared.error.kind.ErrorKind.TheVariants.{OutOfMemory};
ghost use Rattle.command_words.specs.Asked.{said};

use crate::asked::Asked;
use crate::commands::VERSION;
use clap::Error;
use clap::error::ErrorKind;
use std::alloc::{AllocError, Global};

/// What is told of words that are no command, by what `clap` says of them.
pub(crate) fn refused<'a>(
    alloc: Global,
    words: &[String],
    error: &Error,
) -> Result<Asked<'a>, AllocError>
    ensures said { IfOk result (λ a. said a ≡ None) }
    ensures memory { kind_of error.now ≡ OutOfMemory → IsErr result }
{
    match error.kind() {
        ErrorKind::OutOfMemory => Err(AllocError),
        ErrorKind::DisplayHelp => Ok(Asked::Shown(format!(in alloc; "{error}")?)),
        ErrorKind::DisplayVersion => Ok(Asked::Shown(format!(in alloc; "allocd {VERSION}\n")?)),
        ErrorKind::UnknownArgument => Ok(Asked::Refused(with_hint(alloc, words, error)?)),
        _ => Ok(Asked::Refused(format!(in alloc; "{error}")?)),
    }
}

/// Where `clap` took words that ask for nothing.
pub(crate) fn no_command<'a>(alloc: Global) -> Result<Asked<'a>, AllocError>
    ensures { IfOk result (λ a. said a ≡ None) }
{
    Ok(Asked::Refused(String::from_str(
        alloc,
        "error: no command\n\nFor more information, try 'allocd --help'.\n",
    )?))
}

/// Where an option is used that only says more of a spread.
pub(crate) fn no_spread<'a>(alloc: Global, name: &str) -> Result<Asked<'a>, AllocError>
    ensures { IfOk result (λ a. said a ≡ None) }
{
    Ok(Asked::Refused(format!(in alloc;
        "error: '--{name}' is of use only beside '--spread <PERCENT>'\n\nFor more information, try '--help'.\n"
    )?))
}

/// What `clap` says of a word that is not expected, with what may be meant by a file's name.
fn with_hint(alloc: Global, words: &[String], error: &Error) -> Result<String, AllocError> {
    let text = format!(in alloc; "{error}")?;
    let hint = hint(alloc, words)?;
    match (text.as_str().split_once("\n\n"), &hint) {
        (Some((what, rest)), Some(hint)) => format!(in alloc; "{what}\n\n  tip: {hint}\n\n{rest}"),
        _ => Ok(text),
    }
}

/// What is meant by a file's name behind a command that takes it in another way.
fn hint(alloc: Global, words: &[String]) -> Result<Option<String>, AllocError> {
    match words {
        [command, file, ..] if !file.as_str().starts_with('-') => {
            hint_of(alloc, command.as_str(), file.as_str())
        }
        _ => Ok(None),
    }
}

fn hint_of(alloc: Global, command: &str, file: &str) -> Result<Option<String>, AllocError> {
    match command {
        "serve" => Ok(Some(format!(in alloc;
            "the configuration stands behind --config: allocd serve --config {file}"
        )?)),
        "agent" => Ok(Some(format!(in alloc;
            "the configuration stands behind --config: allocd agent --config {file}"
        )?)),
        "check" | "plan" | "relabel" | "replay" | "session" => Ok(Some(format!(in alloc;
            "the input is read from standard input: allocd {command} < {file}"
        )?)),
        _ => Ok(None),
    }
}
