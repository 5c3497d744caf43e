//! Files as crashes leave them.
use crate::device::Memory;
use allocation_core::{Answer, Core, Refusal};
use durable_journal::{
    Begun, FirstLine, Lines, Recovered, append, configuration_line, journal_lines, recover,
    sealed_by_hand,
};
use fleet_events::{Event, read_event};
use journal_entries::Entry;
use replay_lines::resume;
use sealed_lines::Chain;
use std::alloc::{AllocError, Global};

/// A configuration over several lines, with a number that is not read.
const CONFIGURATION: &str =
    "{\n  \"pause\": 0.5,\n  \"scrape_configs\": [\n    {\"job_name\": \"j\", \"target_limit\": 1}\n  ]\n}\n";

const JOIN: &str = "{\"reach\":[], \"name\":\"a\", \"event\":\"join\"}";

const ROUND: &str = "{\"event\":\"round\"}";

/// The journal of that configuration and both events.
const LINES: &str =
    "{\"\":\"allocd journal\",\"pause\":0.5,\"scrape_configs\":[{\"job_name\":\"j\",\"target_limit\":1}]}\n{\"event\":\"join\",\"name\":\"a\",\"reach\":[]}\n{\"event\":\"round\"}\n";

/// A file with the first line and both events, and of a third what a crash leaves.
fn crashed(alloc: Global) -> Option<Memory> {
    match begun(
        alloc,
        FirstLine::configured(alloc, CONFIGURATION.as_bytes()),
    ) {
        Some(begun) => entered(alloc, begun),
        None => None,
    }
}

/// A file with a first line alone, whose bytes are counted.
fn begun(alloc: Global, line: Result<Option<FirstLine>, AllocError>) -> Option<Begun<Memory>> {
    let file = Memory {
        bytes: Vec::new(alloc),
    };
    match line {
        Ok(Some(line)) => line.begin(alloc, file).ok(),
        _ => None,
    }
}

fn entered(alloc: Global, begun: Begun<Memory>) -> Option<Memory> {
    let Begun {
        mut file,
        chain,
        bytes,
    } = begun;
    if bytes == file.bytes.len() as u64
        && enters_both(alloc, chain, &mut file)
        && append(&mut file, b"{\"event").is_ok()
    {
        return Some(file);
    }
    None
}

fn appends(file: &mut Memory, lines: &Lines) -> Option<Chain> {
    append(file, lines.bytes.as_slice()).ok()?;
    lines.chain
}

/// Enters both events, and between them one that was refused.
fn enters_both(alloc: Global, chain: Chain, file: &mut Memory) -> bool {
    match (
        read_event(alloc, JOIN.as_bytes()),
        read_event(alloc, JOIN.as_bytes()),
        read_event(alloc, ROUND.as_bytes()),
    ) {
        (Ok(Some(join)), Ok(Some(again)), Ok(Some(round))) => {
            let entries = [
                entry(join, Answer::Joined(1)),
                entry(again, Answer::Not(Refusal::AlreadyJoined(1))),
                entry(round, Answer::RoundOpen(2)),
            ];
            enters(alloc, chain, file, &entries)
        }
        _ => false,
    }
}

fn entry(event: Event, answer: Answer) -> Entry {
    Entry {
        event,
        seat: 0,
        answer,
    }
}

fn enters(alloc: Global, chain: Chain, file: &mut Memory, entries: &[Entry]) -> bool {
    match journal_lines(alloc, Some(chain), entries) {
        Ok(lines) => appends(file, &lines).is_some(),
        Err(_) => false,
    }
}

/// Whether these whole lines are found in a file, and so many bytes behind them.
fn finds(alloc: Global, file: &[u8], wanted: &str, behind: usize) -> bool {
    let mut reader = file;
    match recover(alloc, &mut reader) {
        Ok(
            Recovered::Found {
                lines,
                chain: _,
                whole,
                torn,
            },
        ) => {
            lines.as_slice() == wanted.as_bytes()
                && torn == behind
                && whole.checked_add(torn) == Some(file.len())
        }
        _ => false,
    }
}

/// Whether the lines lead to this round after so many events.
fn leads_to(alloc: Global, lines: &[u8], round: u32, events: u64) -> bool {
    match resume(alloc, lines) {
        Ok(Ok(resumption)) => resumption.core.round() == round && resumption.events == events,
        _ => false,
    }
}

#[test]
fn finds_again_what_was_appended(rt: HostRuntime) {
    let Some(file) = crashed(rt.alloc()) else {
        panic!(rt; "the journal is not written");
    };
    assert!(rt; finds(rt.alloc(), file.bytes.as_slice(), LINES, 7));
    assert!(rt; leads_to(rt.alloc(), LINES.as_bytes(), 2, 2));
}

/// Whether a journal that goes on from where these lines lead begins there.
fn goes_on(alloc: Global, lines: &[u8]) -> bool {
    match resume(alloc, lines) {
        Ok(Ok(resumption)) => goes_on_from(alloc, &resumption.core),
        _ => false,
    }
}

fn goes_on_from(alloc: Global, core: &Core) -> bool {
    match begun(
        alloc,
        FirstLine::renewed(alloc, CONFIGURATION.as_bytes(), core),
    ) {
        Some(begun) => is_found_at(alloc, begun.file.bytes.as_slice(), 2),
        None => false,
    }
}

/// Whether a file leads to this round with its first line alone.
fn is_found_at(alloc: Global, file: &[u8], round: u32) -> bool {
    let mut reader = file;
    match recover(alloc, &mut reader) {
        Ok(
            Recovered::Found {
                lines,
                chain: Some(_),
                whole: _,
                torn: 0,
            },
        ) => leads_to(alloc, lines.as_slice(), round, 0),
        _ => false,
    }
}

/// Whether this is the line of the configuration.
fn is_its_line(alloc: Global, line: &str) -> bool {
    match configuration_line(alloc, CONFIGURATION.as_bytes()) {
        Ok(Some(given)) => given.as_str() == line,
        _ => false,
    }
}

#[test]
fn a_configuration_is_one_line(rt: HostRuntime) {
    assert!(rt;
        is_its_line(
            rt.alloc(),
            "{\"\":\"allocd journal\",\"pause\":0.5,\"scrape_configs\":[{\"job_name\":\"j\",\"target_limit\":1}]}"
        )
    );
}

#[test]
fn goes_on_in_another_file(rt: HostRuntime) {
    assert!(rt; goes_on(rt.alloc(), LINES.as_bytes()));
}

#[test]
fn a_torn_first_line_is_found(rt: HostRuntime) {
    assert!(rt; finds(rt.alloc(), b"{\"\":\"all", "", 8));
}

/// Whether a file is no journal, nor what a crash may leave of one.
fn is_other(alloc: Global, file: &[u8]) -> bool {
    let mut reader = file;
    matches!(recover(alloc, &mut reader), Ok(Recovered::Other))
}

#[test]
fn another_file_is_no_journal(rt: HostRuntime) {
    let others: [&[u8]; 6] = [
        b"{\"scrape_configs\":[]}",
        b"{\"scrape_configs\":[]}\n",
        b"a note",
        b"{\"\":\"allocd journal\"}\na note",
        b"{\"scrape_configs\":[]}\n{\"event\":\"round\"}\n# mine",
        b"\0\0\0\0",
    ];
    assert!(rt; others.iter().all(|file| is_other(rt.alloc(), *file)));
}

/// A first line, and an event, with their digests.
const SEALED: &str =
    "{\"\":\"allocd journal\",\"scrape_configs\":[{\"job_name\":\"node\"}]} \"4aea3da4c1eb3a44\"\n{\"event\":\"join\",\"name\":\"a\",\"reach\":[]} \"b6fd76f484fc3be3\"\n";

const UNSEALED: &str =
    "{\"\":\"allocd journal\",\"scrape_configs\":[{\"job_name\":\"node\"}]}\n{\"event\":\"join\",\"name\":\"a\",\"reach\":[]}\n";

/// Whether the line of this number is told to be altered.
fn is_altered(alloc: Global, file: &[u8], number: u64) -> bool {
    let mut reader = file;
    match recover(alloc, &mut reader) {
        Ok(Recovered::Altered { line }) => line == number,
        _ => false,
    }
}

#[test]
fn digests_are_those_of_the_documentation(rt: HostRuntime) {
    assert!(rt; finds(rt.alloc(), SEALED.as_bytes(), UNSEALED, 0));
    assert!(rt; finds(rt.alloc(), UNSEALED.as_bytes(), UNSEALED, 0));
}

#[test]
fn another_name_is_another_line(rt: HostRuntime) {
    let file =
        "{\"\":\"allocd journal\",\"scrape_configs\":[{\"job_name\":\"node\"}]} \"4aea3da4c1eb3a44\"\n{\"event\":\"join\",\"name\":\"b\",\"reach\":[]} \"b6fd76f484fc3be3\"\n";
    assert!(rt; is_altered(rt.alloc(), file.as_bytes(), 2));
}

/// Whether a file that is sealed by hand is read, and says so.
fn is_sealed_by_hand(alloc: Global, file: &[u8]) -> bool {
    match sealed_by_hand(alloc, file) {
        Ok(Ok(bytes)) => finds(
            alloc,
            bytes.as_slice(),
            "{\"\":\"allocd journal\",\"scrape_configs\":[{\"job_name\":\"node\"}],\"sealed\":\"by hand\"}\n{\"event\":\"join\",\"name\":\"a\",\"reach\":[]}\n",
            0,
        ),
        _ => false,
    }
}

#[test]
fn a_mended_journal_is_sealed(rt: HostRuntime) {
    assert!(rt; is_sealed_by_hand(rt.alloc(), SEALED.as_bytes()));
    assert!(rt; is_sealed_by_hand(rt.alloc(), UNSEALED.as_bytes()));
}
