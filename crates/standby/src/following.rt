//! How an instance that stands by reads along.
use crate::standing::Standing;
use etcd_terms::{Looked, Reading};
use etcd_turns::{Etcd, Sight, look};
use json_values::parse;
use lists::Text;
use log::warn;
use logfmt::Logfmt;
use std::alloc::{AllocError, AllocGlobal, Global};
use std::sync::Wait;
use std::thread;
use std::time::{Clock, Duration};

/// How long is waited between two looks, in milliseconds.
const PAUSE: u64 = 1_000;

/// How long is waited between two looks at whether it is to end, in milliseconds.
const LOOK: u64 = 50;

/// Why an instance stands by no more.
#[derive(Clone, Copy, PartialEq, Eq)]
pub enum Followed {
    /// Nobody leads.
    Free,
    /// It was told to end.
    Quits,
}

/// Reads along until nobody leads, or the instance is to end.
pub fn follow<R, E>(rt: &R, prefix: &str, etcd: &mut E, standing: &Standing) -> Followed
where
    R: Wait + Clock + AllocGlobal + Eprint + Copy,
    E: Etcd,
{
    let mut reading = Reading::new(rt.alloc(), 0);
    for _ in rt.forever() {
        if standing.is_quitting() {
            return Followed::Quits;
        }
        match look_once(rt, prefix, etcd, standing, &mut reading) {
            Stand::Free => return Followed::Free,
            Stand::More => {}
            Stand::Same => pause(rt, standing),
        }
    }
    unreachable!()
}

/// What one look came to.
#[derive(Clone, Copy)]
enum Stand {
    /// Nobody leads.
    Free,
    /// There is more to be read.
    More,
    /// There is nothing more, or nothing is known.
    Same,
}

/// Looks once, and notes what is seen.
fn look_once<R, E>(
    rt: &R,
    prefix: &str,
    etcd: &mut E,
    standing: &Standing,
    reading: &mut Reading,
) -> Stand
where
    R: Wait + Clock + AllocGlobal + Eprint + Copy,
    E: Etcd,
{
    let before = reading.count;
    match look(rt.alloc(), prefix, etcd, reading) {
        Ok(sight) => {
            note(rt, standing, &sight, reading, before);
            let stand = stand_of(&sight);
            drop(sight);
            stand
        }
        Err(AllocError) => {
            *reading = Reading::new(rt.alloc(), 0);
            Stand::Same
        }
    }
}

fn stand_of(sight: &Sight) -> Stand {
    match sight.looked {
        Looked::Unknown => Stand::Same,
        _ if sight.leader.is_none() => Stand::Free,
        Looked::Whole => Stand::Same,
        Looked::Anew | Looked::More => Stand::More,
    }
}

/// Waits a while, or until the instance is to end.
fn pause<R: Clock>(rt: &R, standing: &Standing) {
    for _ in 0..PAUSE / LOOK {
        if standing.is_quitting() {
            return;
        }
        thread::sleep(rt, Duration::from_millis(LOOK));
    }
}

/// Notes what a look came to.
fn note<R: Wait + Clock + AllocGlobal + Eprint + Copy>(
    rt: &R,
    standing: &Standing,
    sight: &Sight,
    reading: &Reading,
    before: u32,
) {
    if sight.looked == Looked::Unknown {
        if standing.miss(rt) {
            log_silent(rt);
        }
        return;
    }
    let leader = leader_of(rt.alloc(), sight);
    let found = u64::from(reading.count.saturating_sub(before));
    let mut board = standing.board.lock(rt);
    board.see(sight, leader, u64::from(reading.count), found);
}

fn log_silent<R: Clock + Eprint + Copy>(rt: &R) {
    warn!(Logfmt(*rt); "etcd does not answer, or refuses what is asked: it is asked again");
}

/// The URL at which who leads is reached. None where nobody leads, or there is no memory.
fn leader_of(alloc: Global, sight: &Sight) -> Option<Text> {
    match &sight.leader {
        Some(term) => advertised(alloc, term.as_slice()).unwrap_or(None),
        None => None,
    }
}

/// The URL that the text of a term tells.
pub fn advertised(alloc: Global, term: &[u8]) -> Result<Option<Text>, AllocError> {
    match parse(alloc, term)? {
        Some(value) => match value.get("advertise").and_then(|url| url.as_str()) {
            Some(url) => Ok(Some(Text::from_str(alloc, url)?)),
            None => Ok(None),
        },
        None => Ok(None),
    }
}
