//! The allocator of the rows.
use crate::jobs::{jobs_of, many_jobs, number};
use crate::outline::outline;
use crate::readers::{READ, fault, history, some};
use alloc_desk::reallocate;
use allocation_core::{
    Answer, Core, Event, JobSpec, NotRenewed, OpenError, RenewalError, Renewed, ReportRounds,
};
use core_history::{read_history, write_history};
use fleet_events::read_event;
use lists::List;
use price_certificate::{Instance, Plan, write_document};
use std::alloc::{AllocError, Global};

const NO_PART: &str = "no such part";

/// The allocator.
pub(crate) type Slot = Option<Core>;

/// What a step comes to. A twin is read from the allocator's history.
pub(crate) fn stepped(
    alloc: Global,
    slot: &mut Slot,
    twin: &mut Slot,
    step: &str,
    text: &str,
) -> Result<String, AllocError> {
    match step {
        "open" => {
            drop(twin.take());
            open(alloc, slot, jobs_of(alloc, text))
        }
        "report_rounds" => book_of(alloc, slot, number(text)),
        "renew" => renew(alloc, slot, jobs_of(alloc, text)),
        "renew_many" => renew(alloc, slot, many_jobs(alloc, number(text))),
        "read_changed" => read_changed(alloc, slot, text),
        "twin" => read_twin(alloc, slot, twin),
        "compare" => compare(alloc, slot, twin),
        _ => told_by_all(alloc, slot, twin, step, text),
    }
}

fn open(
    alloc: Global,
    slot: &mut Slot,
    jobs: Result<Vec<JobSpec>, AllocError>,
) -> Result<String, AllocError> {
    match jobs {
        Ok(jobs) => opened(alloc, slot, Core::open(alloc, jobs)),
        Err(error) => Err(error),
    }
}

fn opened(
    alloc: Global,
    slot: &mut Slot,
    core: Result<Core, OpenError>,
) -> Result<String, AllocError> {
    match core {
        Ok(core) => {
            drop(slot.replace(core));
            String::from_str(alloc, "opened")
        }
        Err(_) => String::from_str(alloc, "not opened"),
    }
}

/// Reports are booked of so many of the last rounds from now on.
fn book_of(alloc: Global, slot: &mut Slot, count: u32) -> Result<String, AllocError> {
    match (slot.take(), ReportRounds::read(count)) {
        (Some(core), Some(report_rounds)) => {
            drop(slot.replace(core.with_report_rounds(report_rounds)));
            String::from_str(alloc, "so many")
        }
        (core, _) => {
            drop(std::mem::replace(slot, core));
            String::from_str(alloc, "as before")
        }
    }
}

fn renew(
    alloc: Global,
    slot: &mut Slot,
    jobs: Result<Vec<JobSpec>, AllocError>,
) -> Result<String, AllocError> {
    match jobs {
        Ok(jobs) => told_of_renewal(alloc, renew_under(slot, jobs)),
        Err(error) => Err(error),
    }
}

/// Why a renewal is refused. None where it is not.
fn renew_under(slot: &mut Slot, jobs: Vec<JobSpec>) -> Option<RenewalError> {
    match slot.take() {
        Some(core) => {
            let report_rounds = core.report_rounds();
            put(slot, core.renew(jobs, report_rounds))
        }
        None => {
            drop(jobs);
            None
        }
    }
}

/// The allocator under other jobs, or as it was.
fn put(slot: &mut Slot, renewed: Result<Renewed, NotRenewed>) -> Option<RenewalError> {
    match renewed {
        Ok(Renewed { core, forgotten }) => {
            drop((slot.replace(core), forgotten));
            None
        }
        Err(NotRenewed { core, why }) => {
            drop(slot.replace(core));
            Some(why)
        }
    }
}

fn told_of_renewal(alloc: Global, refusal: Option<RenewalError>) -> Result<String, AllocError> {
    let told = match refusal {
        Some(RenewalError::BadJobs) => "BadJobs",
        Some(RenewalError::TooManyBins) => "TooManyBins",
        Some(RenewalError::RoundsSpent) => "RoundsSpent",
        Some(RenewalError::Memory) => return Err(AllocError),
        None => "renewed",
    };
    String::from_str(alloc, told)
}

/// What the allocator says, and its twin where there is one.
fn told_by_all(
    alloc: Global,
    slot: &mut Slot,
    twin: &mut Slot,
    step: &str,
    text: &str,
) -> Result<String, AllocError> {
    match told_by(alloc, slot, step, text) {
        Ok(one) => with_other(alloc, one, told_by(alloc, twin, step, text)),
        Err(error) => Err(error),
    }
}

/// Empty where there is no allocator.
fn told_by(alloc: Global, slot: &mut Slot, step: &str, text: &str) -> Result<String, AllocError> {
    match slot {
        Some(core) => told(alloc, core, step, text),
        None => Ok(String::new(alloc)),
    }
}

fn with_other(
    alloc: Global,
    one: String,
    other: Result<String, AllocError>,
) -> Result<String, AllocError> {
    match other {
        Ok(other) if !other.is_empty() && other.as_str() != one.as_str() => {
            format!(in alloc; "{one}, but {other}")
        }
        Ok(_) => Ok(one),
        Err(error) => Err(error),
    }
}

fn told(alloc: Global, core: &mut Core, step: &str, text: &str) -> Result<String, AllocError> {
    match step {
        "apply" => applied(alloc, core, text),
        "join_many" => join_many(alloc, core, number(text)),
        "reallocate" => reallocated(alloc, core),
        "outline" => outline(alloc, core),
        "sizes" => sizes(alloc, core),
        "instance" => instance(alloc, core),
        "write" => written(alloc, core),
        "changed" => changed(alloc, core, text),
        _ => String::from_str(alloc, "no reader"),
    }
}

fn reallocated(alloc: Global, core: &mut Core) -> Result<String, AllocError> {
    match reallocate(alloc, core) {
        Ok(answer) => line_of(alloc, answer),
        Err(error) => Err(error),
    }
}

fn instance(alloc: Global, core: &Core) -> Result<String, AllocError> {
    match core.instance() {
        Ok(instance) => {
            let document = document_of(alloc, &instance);
            drop(instance);
            document
        }
        Err(error) => Err(error),
    }
}

fn written(alloc: Global, core: &Core) -> Result<String, AllocError> {
    match write_history(alloc, core) {
        Ok(line) => Ok(line.into_string()),
        Err(error) => Err(error),
    }
}

fn changed(alloc: Global, core: &Core, text: &str) -> Result<String, AllocError> {
    match written(alloc, core) {
        Ok(line) => changed_in(alloc, line.as_str(), text),
        Err(error) => Err(error),
    }
}

fn line_of(alloc: Global, answer: Answer) -> Result<String, AllocError> {
    let line = answer.line(alloc);
    drop(answer);
    line
}

fn applied(alloc: Global, core: &mut Core, text: &str) -> Result<String, AllocError> {
    match read_event(alloc, text.as_bytes()) {
        Ok(Some(event)) => answered(alloc, core, event),
        Ok(None) => String::from_str(alloc, "no event"),
        Err(error) => Err(error),
    }
}

fn answered(alloc: Global, core: &mut Core, event: Event) -> Result<String, AllocError> {
    match core.apply(event) {
        Ok(answer) => line_of(alloc, answer),
        Err(error) => Err(error),
    }
}

/// The answers to the joins.
fn join_many(alloc: Global, core: &mut Core, count: u32) -> Result<String, AllocError> {
    let mut answers = String::new(alloc);
    for number in core.collectors().len()..count as usize {
        push_join(alloc, &mut answers, core, number)?;
    }
    Ok(answers)
}

fn push_join(
    alloc: Global,
    answers: &mut String,
    core: &mut Core,
    number: usize,
) -> Result<(), AllocError> {
    let answer = joined(alloc, core, number)?;
    answers.push_str(answer.as_str())?;
    answers.push_str(";")
}

fn joined(alloc: Global, core: &mut Core, number: usize) -> Result<String, AllocError> {
    match format!(in alloc; "{{\"event\":\"join\",\"name\":\"n{number}\",\"reach\":[]}}") {
        Ok(line) => applied(alloc, core, line.as_str()),
        Err(error) => Err(error),
    }
}

fn sizes(alloc: Global, core: &Core) -> Result<String, AllocError> {
    let jobs = core.fleet().jobs().len();
    let collectors = core.collectors().len();
    format!(in alloc; "jobs {jobs} collectors {collectors}")
}

/// The instance's document, with nothing of a plan.
fn document_of(alloc: Global, instance: &Instance) -> Result<String, AllocError> {
    let nothing = Plan {
        pairs: List::new(alloc),
        item_prices: List::new(alloc),
        bin_prices: List::new(alloc),
    };
    text_of(alloc, write_document(alloc, instance, &nothing))
}

fn text_of(alloc: Global, bytes: Result<Vec<u8>, AllocError>) -> Result<String, AllocError> {
    match bytes {
        Ok(bytes) => match String::from_utf8(bytes) {
            Ok(text) => Ok(text),
            Err(_) => String::from_str(alloc, "no text"),
        },
        Err(error) => Err(error),
    }
}

/// Whether a history is read with one part changed, or two.
fn changed_in(alloc: Global, line: &str, text: &str) -> Result<String, AllocError> {
    match text.split_once(" and ") {
        Some((change, other)) => changed_twice(alloc, exchanged(alloc, line, change), other),
        None => changed_once(alloc, line, text),
    }
}

fn changed_twice(
    alloc: Global,
    line: Result<Option<String>, AllocError>,
    change: &str,
) -> Result<String, AllocError> {
    match line {
        Ok(Some(line)) => changed_once(alloc, line.as_str(), change),
        Ok(None) => String::from_str(alloc, NO_PART),
        Err(error) => Err(error),
    }
}

fn changed_once(alloc: Global, line: &str, change: &str) -> Result<String, AllocError> {
    match exchanged(alloc, line, change) {
        Ok(Some(line)) => history(alloc, line.as_bytes()),
        Ok(None) => String::from_str(alloc, NO_PART),
        Err(error) => Err(error),
    }
}

/// The line with another part in place of the first such. None where there is none.
fn exchanged(alloc: Global, line: &str, change: &str) -> Result<Option<String>, AllocError> {
    match change.split_once(" => ") {
        Some((part, other)) if line.contains(part) => some(line.replacen(alloc, part, other, 1)),
        _ => Ok(None),
    }
}

fn read_changed(alloc: Global, slot: &mut Slot, change: &str) -> Result<String, AllocError> {
    match changed_history(alloc, slot, change) {
        Ok(Some(line)) => read_into(alloc, slot, line.as_str()),
        Ok(None) => String::from_str(alloc, NO_PART),
        Err(error) => Err(error),
    }
}

fn changed_history(alloc: Global, slot: &Slot, change: &str) -> Result<Option<String>, AllocError> {
    match history_of(alloc, slot) {
        Ok(line) => exchanged(alloc, line.as_str(), change),
        Err(error) => Err(error),
    }
}

/// Empty where there is no allocator.
fn history_of(alloc: Global, slot: &Slot) -> Result<String, AllocError> {
    match slot {
        Some(core) => written(alloc, core),
        None => Ok(String::new(alloc)),
    }
}

fn outline_of(alloc: Global, slot: &Slot) -> Result<String, AllocError> {
    match slot {
        Some(core) => outline(alloc, core),
        None => Ok(String::new(alloc)),
    }
}

/// From now on the allocator is that of the line.
fn read_into(alloc: Global, slot: &mut Slot, line: &str) -> Result<String, AllocError> {
    match read_history(alloc, line.as_bytes()) {
        Ok(core) => {
            drop(slot.replace(core));
            String::from_str(alloc, READ)
        }
        Err(error) => fault(alloc, error),
    }
}

fn read_twin(alloc: Global, slot: &Slot, twin: &mut Slot) -> Result<String, AllocError> {
    match history_of(alloc, slot) {
        Ok(line) => read_into(alloc, twin, line.as_str()),
        Err(error) => Err(error),
    }
}

fn compare(alloc: Global, slot: &Slot, twin: &Slot) -> Result<String, AllocError> {
    let outlines = are_same(outline_of(alloc, slot), outline_of(alloc, twin));
    let histories = are_same(history_of(alloc, slot), history_of(alloc, twin));
    String::from_str(
        alloc,
        match (outlines, histories) {
            (true, true) => "alike",
            (true, false) => "another history",
            (false, true) => "another outline",
            (false, false) => "another outline, another history",
        },
    )
}

fn are_same(one: Result<String, AllocError>, other: Result<String, AllocError>) -> bool {
    match (one, other) {
        (Ok(one), Ok(other)) => one.as_str() == other.as_str(),
        _ => false,
    }
}
