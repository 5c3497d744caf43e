//! The command `check`: it judges a certificate document.
ghost use Rattle.std.specs.Prelude.{◌≡◌, IfOk, string_bytes};
ghost use Rattle.offline_commands.specs.Answer.{EndsTo, NoFront};
ghost use Rattle.offline_commands.specs.Check.{Checks, best_line, verdict_line, verdict_status, told, spread_ending, spread_told, spread_verdict_line, spread_status, told_of};
ghost use Rattle.price_certificate.specs.Faults.{verdict_of};
ghost use Rattle.spread_certificate.specs.Judged.{spread_verdict};

use crate::answer::{Answer, Unfinished, whole_or_nothing};
use crate::ending::{Ending, Status};
use crate::runner::{Task, run_task};
use crate::unreadable::Unreadable;
use lists::List;
use price_certificate::{DocumentError, Instance, Plan, Verdict, Version, check};
use spread_certificate::{Certificate, Spread, SpreadVerdict, judge_spread, read_spread_document};
use std::alloc::{AllocError, Global};
use std::io::{Read, Write};

/// The task of the command `check`.
pub struct Check {}

impl Task for Check {
    ghost answers = { λ task. Checks };

    ghost begins = { NoFront };

    fn answer(&self, alloc: Global, input: &[u8]) -> Result<Answer, Unfinished> {
        whole_or_nothing(alloc, answer_to(alloc, input))
    }
}

/// Reads a certificate document to its end, and writes one line on it: that the plan or the spread is certified, that it is
/// refused, or that the input is no such document.
pub fn run_check<R: Read, W: Write>(alloc: Global, reader: &mut R, writer: &mut W) -> Ending
    ensures { EndsTo Checks NoFront (R.remaining reader.old) (W.contents writer.old) (W.contents writer.new) result }
{
    run_task(&Check {}, alloc, reader, writer)
}

fn answer_to(alloc: Global, input: &[u8]) -> Result<Answer, AllocError>
    ensures { IfOk result (Checks input.now) }
{
    match read_spread_document(alloc, input) {
        Ok((instance, certificate)) => judged(alloc, &instance, &certificate),
        Err(DocumentError::NotJson) => Ok(Answer::NotRead(Unreadable::NotJson)),
        Err(DocumentError::Shape) => Ok(Answer::NotRead(Unreadable::Shape)),
        Err(DocumentError::Memory) => Err(AllocError),
    }
}

/// The answer to what a document proposes.
fn judged(
    alloc: Global,
    instance: &Instance,
    certificate: &Certificate,
) -> Result<Answer, AllocError>
    ensures { IfOk result (λ answer. answer ≡ told_of instance.now certificate.now) }
{
    match certificate {
        Certificate::Plan(plan) => judged_plan(alloc, instance, plan),
        Certificate::Spread(spread) => judged_spread(alloc, instance, spread),
    }
}

/// The answer to a plan.
fn judged_plan(alloc: Global, instance: &Instance, plan: &Plan) -> Result<Answer, AllocError>
    ensures { IfOk result (λ answer. answer ≡ told instance.now.version (verdict_of instance.now plan.now.pairs plan.now.item_prices plan.now.bin_prices)) }
{
    let verdict = check(alloc, instance, plan)?;
    let line = line_of(alloc, instance.version(), verdict)?;
    Ok(Answer::Text {
        text: List::from_vec(line.into_bytes()),
        status: status_of(verdict),
    })
}

/// The answer to a spread.
fn judged_spread(alloc: Global, instance: &Instance, spread: &Spread) -> Result<Answer, AllocError>
    ensures { IfOk result (λ answer. answer ≡ spread_told instance.now.version (spread_verdict instance.now spread.now)) }
{
    let verdict = judge_spread(alloc, instance, spread)?;
    let line = spread_line_of(alloc, instance.version(), verdict)?;
    Ok(Answer::Text {
        text: List::from_vec(line.into_bytes()),
        status: spread_status_of(verdict),
    })
}

/// The line on a verdict.
fn line_of(alloc: Global, version: Version, verdict: Verdict) -> Result<String, AllocError>
    ensures { IfOk result (λ line. string_bytes line ≡ verdict_line version verdict) }
{
    match verdict {
        Verdict::Best {
            covered,
            left,
            moved,
        } => best_line(alloc, version, covered, left, moved, ""),
        Verdict::Refused(fault) => {
            let line = fault.line(alloc)?;
            format!(in alloc; "refused {line}\n")
        }
    }
}

/// The line on the verdict of a spread.
fn spread_line_of(
    alloc: Global,
    version: Version,
    verdict: SpreadVerdict,
) -> Result<String, AllocError>
    ensures { IfOk result (λ line. string_bytes line ≡ spread_verdict_line version verdict) }
{
    match verdict {
        SpreadVerdict::Best {
            covered,
            left,
            moved,
            slack,
        } => {
            let ending = ending_of(alloc, slack)?;
            best_line(alloc, version, covered, left, moved, ending.as_str())
        }
        SpreadVerdict::Refused(fault) => {
            let line = fault.line(alloc)?;
            format!(in alloc; "refused {line}\n")
        }
    }
}

/// How the line on a spread ends.
fn ending_of(alloc: Global, slack: Option<u32>) -> Result<String, AllocError>
    ensures { IfOk result (λ ending. string_bytes ending ≡ spread_ending slack) }
{
    match slack {
        Some(slack) => format!(in alloc; " even slack={slack}"),
        None => String::from_str(alloc, " capped"),
    }
}

/// The line on a best plan.
fn best_line(
    alloc: Global,
    version: Version,
    covered: u64,
    left: u64,
    moved: u64,
    ending: &str,
) -> Result<String, AllocError>
    ensures { IfOk result (λ line. string_bytes line ≡ best_line version covered left moved ending.now) }
{
    match version {
        Version::One => format!(in alloc; "best covered={covered} moved={moved}{ending}\n"),
        Version::Two => {
            format!(in alloc; "best covered={covered} left={left} moved={moved}{ending}\n")
        }
    }
}

fn status_of(verdict: Verdict) -> Status
    ensures { result ≡ verdict_status verdict }
{
    match verdict {
        Verdict::Best { .. } => Status::Done,
        Verdict::Refused(_) => Status::Refused,
    }
}

fn spread_status_of(verdict: SpreadVerdict) -> Status
    ensures { result ≡ spread_status verdict }
{
    match verdict {
        SpreadVerdict::Best { .. } => Status::Done,
        SpreadVerdict::Refused(_) => Status::Refused,
    }
}
