//! The command `audit`: whether each journal begins with what the one before it came to.
ghost use Rattle.std.specs.Prelude.{◌≡◌, IfErr, IfOk, []};
ghost use Rattle.replay_lines.specs.Lines.{AddsFront};
ghost use Rattle.audit.specs.Audits.{report_of};
ghost use Rattle.offline_commands.specs.Audit.{Audits, audited_status};

use crate::answer::Unfinished;
use crate::ending::{Ending, Status, Stop};
use crate::journals::{read_journals, tell_fault};
use crate::output::{write_last, write_stop};
use audit::{Audited, audit};
use lists::List;
use std::alloc::Global;
use std::fs::File;
use std::io::Write;
use std::rt::Files;

/// Audits the journals of some files, and writes what it found. A file that is not read is told on standard error.
pub fn audit_files<R: Files<File = File> + Eprint, W: Write>(
    rt: &R,
    alloc: Global,
    paths: &[&str],
    writer: &mut W,
) -> Ending {
    match read_journals(rt, alloc, paths) {
        Ok(journals) => run_audit(alloc, journals.as_slice(), writer),
        Err(fault) => tell_fault(rt, fault, writer),
    }
}

/// Audits the files of journals, and writes what it found: a line for each, and a line of all, or the first fault. Where no memory is left, the lines so
/// far stand before the line that says so.
pub fn run_audit<W: Write>(alloc: Global, journals: &[List<u8>], writer: &mut W) -> Ending
    ensures { Audits journals.now (W.contents writer.old) (W.contents writer.new) result }
{
    match report(alloc, journals) {
        Ok((text, status)) => write_last(writer, text.as_slice(), Ending::Answered(status)),
        Err(unfinished) => write_stop(writer, unfinished.front.as_slice(), Stop::Memory),
    }
}

fn report(alloc: Global, journals: &[List<u8>]) -> Result<(List<u8>, Status), Unfinished>
    ensures text { IfOk result (λ r. r.0 ≡ (report_of journals.now).text) }
    ensures status { IfOk result (λ r. r.1 ≡ audited_status (report_of journals.now).audited) }
    ensures front { IfErr result (λ u. AddsFront (report_of journals.now).text [] u.front) }
{
    let mut text = Vec::new(alloc);
    let audited = audit(alloc, journals, &mut text);
    let text = List::from_vec(text);
    match audited {
        Ok(audited) => Ok((text, status_of(audited))),
        Err(_) => Err(Unfinished { front: text }),
    }
}

fn status_of(audited: Audited) -> Status
    ensures { result ≡ audited_status audited }
{
    match audited {
        Audited::Consistent => Status::Done,
        Audited::Inconsistent => Status::Refused,
    }
}
