//! What a seat asks, until it is known.
ghost use Rattle.std.specs.Prelude.{◌≡◌, true, IfOk, OnOk};
ghost use Rattle.etcd_turns.specs.Posts.{Heard, Settled, Steps};
ghost use Rattle.etcd_turns.specs.Wishes.{Done};

use crate::asking::ask;
use crate::outside::Etcd;
use etcd_terms::{Seat, Wish};
use std::alloc::{AllocError, Global};

/// Asks what a seat wishes until it is known, and tells whether it is done and the seat still leads. It is not where it may not be asked now.
pub(crate) fn done<E: Etcd>(
    alloc: Global,
    prefix: &str,
    term: &str,
    etcd: &mut E,
    seat: &mut Seat,
    wish: Wish,
) -> Result<bool, AllocError>
    ensures { IfOk result (λ done. done ≡ true → Done E.may_post prefix.now term.now wish etcd.old seat.old etcd.new seat.new) }
{
    if !seat.wish(wish) {
        return Ok(false);
    }
    settle(alloc, prefix, term, etcd, seat)?;
    Ok(!seat.is_over)
}

/// Asks until it is known, or the seat leads no more.
fn settle<E: Etcd>(
    alloc: Global,
    prefix: &str,
    term: &str,
    etcd: &mut E,
    seat: &mut Seat,
) -> Result<(), AllocError>
    ensures { OnOk result (Settled E.may_post prefix.now term.now etcd.old seat.old etcd.new seat.new) }
{
    for _ in 0..u64::MAX {
        if seat.asked.is_none() {
            return Ok(());
        }
        step(alloc, prefix, term, etcd, seat)?;
    }
    seat.end();
    Ok(())
}

/// Asks once, where the seat may lead.
fn step<E: Etcd>(
    alloc: Global,
    prefix: &str,
    term: &str,
    etcd: &mut E,
    seat: &mut Seat,
) -> Result<(), AllocError>
    ensures { OnOk result (Steps E.may_post prefix.now term.now etcd.old seat.old etcd.new seat.new) }
{
    if !etcd.may_lead() {
        seat.end();
        return Ok(());
    }
    match seat.body(alloc, prefix, term)? {
        Some(body) => post(alloc, term, etcd, seat, body.as_str().as_bytes()),
        None => {
            seat.end();
            Ok(())
        }
    }
}

fn post<E: Etcd>(
    alloc: Global,
    term: &str,
    etcd: &mut E,
    seat: &mut Seat,
    body: &[u8],
) -> Result<(), AllocError>
    ensures { OnOk result (Heard E.may_post term.now body.now etcd.old seat.old etcd.new seat.new) }
{
    let answer = ask(alloc, etcd, body)?;
    let heard = seat.hear(alloc, term, &answer);
    drop(answer);
    heard
}
