//! Looks at what stands in etcd.
ghost use Rattle.std.specs.Prelude.{◌≡◌, true, false, Some, IfOk, IfSome};
ghost use Rattle.etcd_answers.specs.declared.verdict.Verdict.TheVariants.{Kept};
ghost use Rattle.etcd_terms.specs.declared.reading.Looked.TheVariants.{Whole};
ghost use Rattle.etcd_terms.specs.Readings.{leader_in};
ghost use Rattle.etcd_terms.specs.Seats.{ended};
ghost use Rattle.etcd_turns.specs.Posts.{Led, ReadAll};
ghost use Rattle.etcd_turns.specs.Sights.{Saw, Seen};
ghost use Rattle.etcd_turns.specs.declared.looking.Stand.TheVariants.{All};

use crate::asking::ask;
use crate::outside::Etcd;
use etcd_answers::{Answer, Verdict};
use etcd_requests::look_body;
use etcd_terms::{Looked, Reading, Seat, leader_in, leads_verdict};
use lists::List;
use std::alloc::{AllocError, Global};

/// What one look came to.
#[derive(Drop)]
pub struct Sight {
    pub looked: Looked,
    /// The text of the term that leads. None where nobody leads, or nothing is known.
    pub leader: Option<List<u8>>,
}

/// Looks once at what stands behind what was read. Where there is no memory, it is to be read anew.
pub fn look<E: Etcd>(
    alloc: Global,
    prefix: &str,
    etcd: &mut E,
    reading: &mut Reading,
) -> Result<Sight, AllocError>
    ensures { IfOk result (λ sight. Seen E.may_post prefix.now etcd.old reading.old sight etcd.new reading.new) }
{
    let body = look_body(alloc, prefix, reading.epoch, reading.count)?;
    match ask(alloc, etcd, body.as_str().as_bytes()) {
        Ok(answer) => see(alloc, reading, answer),
        Err(error) => Err(error),
    }
}

/// The answer came to a look.
fn see(alloc: Global, reading: &mut Reading, answer: Answer) -> Result<Sight, AllocError>
    ensures { IfOk result (λ sight. Saw answer reading.old sight reading.new) }
{
    let seen = saw(alloc, reading, &answer);
    drop(answer);
    seen
}

fn saw(alloc: Global, reading: &mut Reading, answer: &Answer) -> Result<Sight, AllocError>
    ensures { IfOk result (λ sight. Saw answer.now reading.old sight reading.new) }
{
    let looked = reading.hear(alloc, answer)?;
    let leader = leader(alloc, answer)?;
    Ok(Sight { looked, leader })
}

fn leader(alloc: Global, answer: &Answer) -> Result<Option<List<u8>>, AllocError>
    ensures { IfOk result (λ o. o ≡ leader_in answer.now) }
{
    match leader_in(answer) {
        Some(term) => Ok(Some(List::from_vec(term.to_vec(alloc)?))),
        None => Ok(None),
    }
}

/// Reads all that stands, until there is no more. None where the term leads no more.
pub fn read_all<E: Etcd>(
    alloc: Global,
    prefix: &str,
    term: &str,
    etcd: &mut E,
) -> Result<Option<Reading>, AllocError>
    ensures { IfOk result (λ o. IfSome o (λ reading. ReadAll E.may_post prefix.now term.now reading etcd.new)) }
{
    let mut reading = Reading::new(alloc, 0);
    match read_on(alloc, prefix, term, etcd, &mut reading) {
        Ok(true) => Ok(Some(reading)),
        Ok(false) => {
            drop(reading);
            Ok(None)
        }
        Err(error) => {
            drop(reading);
            Err(error)
        }
    }
}

fn read_on<E: Etcd>(
    alloc: Global,
    prefix: &str,
    term: &str,
    etcd: &mut E,
    reading: &mut Reading,
) -> Result<bool, AllocError>
    ensures { IfOk result (λ all. all ≡ true → ReadAll E.may_post prefix.now term.now reading.new etcd.new) }
{
    for _ in 0..u64::MAX {
        if !etcd.may_lead() {
            return Ok(false);
        }
        match read_more(alloc, prefix, term, etcd, reading)? {
            Stand::All => return Ok(true),
            Stand::Gone => return Ok(false),
            Stand::More => {}
        }
    }
    Ok(false)
}

/// How it stands with a reading.
#[derive(Clone, Copy)]
enum Stand {
    /// There is more, or it is not known.
    More,
    All,
    /// The term leads no more.
    Gone,
}

fn read_more<E: Etcd>(
    alloc: Global,
    prefix: &str,
    term: &str,
    etcd: &mut E,
    reading: &mut Reading,
) -> Result<Stand, AllocError>
    ensures { IfOk result (λ s. s ≡ All → ReadAll E.may_post prefix.now term.now reading.new etcd.new) }
{
    let sight = look(alloc, prefix, etcd, reading)?;
    let stand = stand_of(&sight, term);
    drop(sight);
    Ok(stand)
}

fn stand_of(sight: &Sight, term: &str) -> Stand
    ensures { result ≡ All → (sight.now.looked ≡ Whole) × (sight.now.leader ≡ Some term.now) }
{
    if sight.looked == Looked::Unknown {
        return Stand::More;
    }
    if !leads(sight, term) {
        return Stand::Gone;
    }
    match sight.looked {
        Looked::Whole => Stand::All,
        Looked::Unknown | Looked::Anew | Looked::More => Stand::More,
    }
}

fn leads(sight: &Sight, term: &str) -> bool
    ensures { result ≡ true → sight.now.leader ≡ Some term.now }
{
    match &sight.leader {
        Some(leader) => leader.as_slice() == term.as_bytes(),
        None => false,
    }
}

/// Whether the seat's term leads and its epoch goes on, asked until it is known. Where it does not, the seat leads no more.
pub fn is_ours<E: Etcd>(
    alloc: Global,
    prefix: &str,
    term: &str,
    etcd: &mut E,
    seat: &mut Seat,
) -> Result<bool, AllocError>
    ensures led { IfOk result (λ ours. ours ≡ true → Led E.may_post prefix.now term.now seat.old.going seat.old.next etcd.new) }
    ensures seat { IfOk result (λ ours. ours ≡ true → seat.new ≡ seat.old) }
    ensures over { IfOk result (λ ours. ours ≡ false → seat.new ≡ ended seat.old) }
{
    let ours = leads_still(alloc, prefix, term, etcd, seat)?;
    if !ours {
        seat.end();
    }
    Ok(ours)
}

fn leads_still<E: Etcd>(
    alloc: Global,
    prefix: &str,
    term: &str,
    etcd: &mut E,
    seat: &Seat,
) -> Result<bool, AllocError>
    ensures { IfOk result (λ ours. ours ≡ true → Led E.may_post prefix.now term.now seat.now.going seat.now.next etcd.new) }
{
    for _ in 0..u64::MAX {
        if seat.is_over || !etcd.may_lead() {
            return Ok(false);
        }
        match leads_now(alloc, prefix, term, etcd, seat)? {
            Verdict::Kept => return Ok(true),
            Verdict::Deposed => return Ok(false),
            Verdict::Unknown => {}
        }
    }
    Ok(false)
}

fn leads_now<E: Etcd>(
    alloc: Global,
    prefix: &str,
    term: &str,
    etcd: &mut E,
    seat: &Seat,
) -> Result<Verdict, AllocError>
    ensures { IfOk result (λ v. v ≡ Kept → Led E.may_post prefix.now term.now seat.now.going seat.now.next etcd.new) }
{
    let body = look_body(alloc, prefix, seat.going, seat.next)?;
    let answer = ask(alloc, etcd, body.as_str().as_bytes())?;
    let verdict = leads_verdict(alloc, &answer, term, seat.going)?;
    Ok(verdict)
}
