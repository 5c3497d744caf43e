//! Turns of an agent, with ` | ` between: of each, with `;` between, the time, what is shown, what Prometheus says, whether it has let go, whether the
//! state file can be written, what comes of reports, and what is given. Lists and scrapes are written as in a run; `gone` and `unknown` stand for no
//! list, and nothing for nothing.
//!
//! The answer has what was done: `wrote`, the reports that were posted, and `took`; and behind each turn the numbers of targets held and served.
use crate::runs::{add_report, lists_in, said_in};
use crate::shared::lasts_in;
use agent_core::{Agent, Lasts, Memory, Report, Said};
use agent_turns::{Heard, Outside, Posted, turn};
use indexmap::IndexMap;
use std::alloc::{AllocError, Global};
use std::cell::Cell;

/// What lies outside, as a turn says it. It keeps a trace of what is done.
#[derive(Drop)]
struct Scripted<'a> {
    alloc: Global,
    at: u64,
    shown: &'a str,
    said: &'a str,
    goes: bool,
    writes: bool,
    posted: Posted,
    given: &'a str,
    trace: Cell<String>,
}

pub(crate) fn take_turns(alloc: Global, text: &str) -> Result<String, AllocError> {
    let mut agent = Agent::new(alloc, Memory::open(alloc), None);
    let mut line = String::new(alloc);
    for step in text.split(" | ") {
        take_turn(alloc, &mut agent, &mut line, step)?;
    }
    Ok(line)
}

fn take_turn(
    alloc: Global,
    agent: &mut Agent,
    line: &mut String,
    text: &str,
) -> Result<(), AllocError> {
    let mut outside = outside_of(alloc, text);
    turn(alloc, agent, &mut outside)?;
    let trace = outside.trace.replace(String::new(alloc));
    line.push_str(trace.as_str())?;
    let (held, served) = (agent.targets().len(), agent.served().len());
    let behind = format!(in alloc; " {held} {served};")?;
    line.push_str(behind.as_str())
}

fn outside_of(alloc: Global, text: &str) -> Scripted<'_> {
    let mut words = text.splitn(7, ';');
    Scripted {
        alloc,
        at: words.next().unwrap_or("").parse().unwrap_or(0),
        shown: words.next().unwrap_or(""),
        said: words.next().unwrap_or(""),
        goes: words.next().unwrap_or("") == "goes",
        writes: words.next().unwrap_or("") == "writes",
        posted: posted_in(words.next().unwrap_or("")),
        given: words.next().unwrap_or(""),
        trace: Cell::new(String::new(alloc)),
    }
}

fn posted_in(word: &str) -> Posted {
    match word {
        "answered" => Posted::Answered,
        "over" => Posted::Over,
        _ => Posted::Unknown,
    }
}

fn heard_in(alloc: Global, text: &str) -> Heard {
    match text {
        "" => Heard::Nothing,
        "gone" => Heard::Gone,
        "unknown" => Heard::Unknown,
        lists => match lists_in(alloc, lists) {
            Ok(lists) => Heard::Lists(lists),
            Err(AllocError) => Heard::Nothing,
        },
    }
}

impl Scripted<'_> {
    /// Something was done.
    fn note(&self, text: &str) {
        let mut trace = self.trace.replace(String::new(self.alloc));
        let _ = trace.push_str(text);
        self.trace.set(trace);
    }

    fn note_reports(&self, reports: &[Report]) {
        let mut trace = self.trace.replace(String::new(self.alloc));
        for report in reports {
            let _ = add_report(self.alloc, &mut trace, report);
        }
        self.trace.set(trace);
    }
}

impl Outside for Scripted<'_> {
    ghost use Rattle.std.specs.Prelude.{⊤};

    ghost may_act = { λ _ _ _. ⊤ };

    fn now(&self) -> u64 {
        self.at
    }

    fn look(&self, _at: u64) -> Heard {
        heard_in(self.alloc, self.shown)
    }

    fn lasts(&self, _agent: &Agent) -> Lasts {
        lasts_in(self.alloc, self.said).unwrap_or(IndexMap::new(self.alloc))
    }

    fn said(&self) -> Option<Said> {
        match self.said {
            "" => None,
            said => said_in(self.alloc, said).ok(),
        }
    }

    fn is_missed(&self, _agent: &Agent, _at: u64) -> bool {
        false
    }

    fn has_let_go(&self, _agent: &Agent) -> bool {
        self.goes
    }

    fn serve(&self, _agent: &Agent, _at: u64) {
        self.note(" served");
    }

    fn write(&mut self, _text: &str) -> bool {
        self.note(" wrote");
        self.writes
    }

    fn post(&mut self, reports: &[Report]) -> Posted {
        self.note_reports(reports);
        self.posted
    }

    fn take(&mut self, _at: u64) -> Heard {
        self.note(" took");
        heard_in(self.alloc, self.given)
    }
}
