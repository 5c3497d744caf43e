//! Epochs that begin and are over.
ghost use Rattle.std.specs.Prelude.{◌≡◌, true, map, IfOk};
ghost use Rattle.etcd_terms.specs.declared.seat.Ahead.TheVariants.{Has};
ghost use Rattle.etcd_terms.specs.declared.seat.Wish.TheVariants.{Cut, Fill, Forget};
ghost use Rattle.etcd_turns.specs.Wishes.{AllDone, Begun, Cleared, Done, Filled, Looked};

use crate::outside::Etcd;
use crate::settling::done;
use etcd_terms::{Ahead, Seat, Wish};
use lists::List;
use std::alloc::{AllocError, Global};

/// Removes the torn end of the epoch that goes on.
pub fn cut<E: Etcd>(
    alloc: Global,
    prefix: &str,
    term: &str,
    etcd: &mut E,
    seat: &mut Seat,
) -> Result<bool, AllocError>
    ensures { IfOk result (λ ok. ok ≡ true → Done E.may_post prefix.now term.now Cut etcd.old seat.old etcd.new seat.new) }
{
    done(alloc, prefix, term, etcd, seat, Wish::Cut)
}

/// Removes the blocks of an epoch that is over.
pub fn forget<E: Etcd>(
    alloc: Global,
    prefix: &str,
    term: &str,
    etcd: &mut E,
    seat: &mut Seat,
    epoch: u32,
) -> Result<bool, AllocError>
    ensures { IfOk result (λ ok. ok ≡ true → Done E.may_post prefix.now term.now (Forget epoch) etcd.old seat.old etcd.new seat.new) }
{
    done(alloc, prefix, term, etcd, seat, Wish::Forget(epoch))
}

/// Begins the next epoch with these bytes, and tells whether it goes on. Where it does not, or there is no memory, nothing more is to be appended.
pub fn begin<E: Etcd>(
    alloc: Global,
    prefix: &str,
    term: &str,
    etcd: &mut E,
    seat: &mut Seat,
    first: &[u8],
) -> Result<bool, AllocError>
    ensures { IfOk result (λ ok. ok ≡ true → Begun E.may_post prefix.now term.now first.now etcd.old seat.old etcd.new seat.new) }
{
    if !look(alloc, prefix, term, etcd, seat)? {
        return Ok(false);
    }
    if fill(alloc, prefix, term, etcd, seat, first)? {
        done(alloc, prefix, term, etcd, seat, Wish::Switch)
    } else {
        Ok(false)
    }
}

/// Writes these bytes as blocks of the next epoch.
fn fill<E: Etcd>(
    alloc: Global,
    prefix: &str,
    term: &str,
    etcd: &mut E,
    seat: &mut Seat,
    first: &[u8],
) -> Result<bool, AllocError>
    ensures { IfOk result (λ ok. ok ≡ true → Filled E.may_post prefix.now term.now first.now etcd.old seat.old etcd.new seat.new) }
{
    let blocks = journal_blocks::cut(alloc, first)?;
    let filled = fill_all(alloc, prefix, term, etcd, seat, blocks.as_slice());
    drop(blocks);
    filled
}

/// Looks where the next epoch begins, and removes what was left there, so that it has no block.
fn look<E: Etcd>(
    alloc: Global,
    prefix: &str,
    term: &str,
    etcd: &mut E,
    seat: &mut Seat,
) -> Result<bool, AllocError>
    ensures looked { IfOk result (λ ok. ok ≡ true → Looked E.may_post prefix.now term.now etcd.old seat.old etcd.new seat.new) }
    ensures none { IfOk result (λ ok. ok ≡ true → seat.new.ahead ≡ Has 0) }
{
    let ok = look_and_clear(alloc, prefix, term, etcd, seat)?;
    Ok(ok && seat.ahead == Ahead::Has(0))
}

fn look_and_clear<E: Etcd>(
    alloc: Global,
    prefix: &str,
    term: &str,
    etcd: &mut E,
    seat: &mut Seat,
) -> Result<bool, AllocError>
    ensures { IfOk result (λ ok. ok ≡ true → Looked E.may_post prefix.now term.now etcd.old seat.old etcd.new seat.new) }
{
    if seat.ahead != Ahead::Unknown {
        return clear(alloc, prefix, term, etcd, seat);
    }
    if done(alloc, prefix, term, etcd, seat, Wish::Look)? {
        clear(alloc, prefix, term, etcd, seat)
    } else {
        Ok(false)
    }
}

fn clear<E: Etcd>(
    alloc: Global,
    prefix: &str,
    term: &str,
    etcd: &mut E,
    seat: &mut Seat,
) -> Result<bool, AllocError>
    ensures { IfOk result (λ ok. ok ≡ true → Cleared E.may_post prefix.now term.now etcd.old seat.old etcd.new seat.new) }
{
    match seat.ahead {
        Ahead::Left(_) => done(alloc, prefix, term, etcd, seat, Wish::Clear),
        Ahead::Unknown | Ahead::Has(_) => Ok(true),
    }
}

fn fill_all<E: Etcd>(
    alloc: Global,
    prefix: &str,
    term: &str,
    etcd: &mut E,
    seat: &mut Seat,
    blocks: &[&[u8]],
) -> Result<bool, AllocError>
    ensures { IfOk result (λ ok. ok ≡ true → AllDone E.may_post prefix.now term.now (map Fill (map (λ b. b.now) blocks.now)) etcd.old seat.old etcd.new seat.new) }
{
    match blocks {
        [] => Ok(true),
        [first, more @ ..] => {
            if fill_one(alloc, prefix, term, etcd, seat, first)? {
                fill_all(alloc, prefix, term, etcd, seat, more)
            } else {
                Ok(false)
            }
        }
    }
}

fn fill_one<E: Etcd>(
    alloc: Global,
    prefix: &str,
    term: &str,
    etcd: &mut E,
    seat: &mut Seat,
    block: &[u8],
) -> Result<bool, AllocError>
    ensures { IfOk result (λ ok. ok ≡ true → Done E.may_post prefix.now term.now (Fill block.now) etcd.old seat.old etcd.new seat.new) }
{
    let block = List::from_vec(block.to_vec(alloc)?);
    done(alloc, prefix, term, etcd, seat, Wish::Fill(block))
}
