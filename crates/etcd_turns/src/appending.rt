//! Bytes that are appended to the epoch that goes on.
ghost use Rattle.std.specs.Prelude.{◌≡◌, true, map, IfOk};
ghost use Rattle.etcd_terms.specs.declared.seat.Wish.TheVariants.{Append};
ghost use Rattle.etcd_turns.specs.Wishes.{AllDone, Appended, Done};

use crate::outside::Etcd;
use crate::settling::done;
use etcd_terms::{Seat, Wish};
use journal_blocks::cut;
use lists::List;
use std::alloc::{AllocError, Global};

/// Appends bytes as blocks, and tells whether all of them are kept. Where they are not, or there is no memory, a beginning of them may be, and nothing
/// more is to be appended.
pub fn append<E: Etcd>(
    alloc: Global,
    prefix: &str,
    term: &str,
    etcd: &mut E,
    seat: &mut Seat,
    bytes: &[u8],
) -> Result<bool, AllocError>
    ensures { IfOk result (λ kept. kept ≡ true → Appended E.may_post prefix.now term.now bytes.now etcd.old seat.old etcd.new seat.new) }
{
    let blocks = cut(alloc, bytes)?;
    let kept = append_all(alloc, prefix, term, etcd, seat, blocks.as_slice());
    drop(blocks);
    kept
}

fn append_all<E: Etcd>(
    alloc: Global,
    prefix: &str,
    term: &str,
    etcd: &mut E,
    seat: &mut Seat,
    blocks: &[&[u8]],
) -> Result<bool, AllocError>
    ensures { IfOk result (λ kept. kept ≡ true → AllDone E.may_post prefix.now term.now (map Append (map (λ b. b.now) blocks.now)) etcd.old seat.old etcd.new seat.new) }
{
    match blocks {
        [] => Ok(true),
        [first, more @ ..] => {
            if append_one(alloc, prefix, term, etcd, seat, first)? {
                append_all(alloc, prefix, term, etcd, seat, more)
            } else {
                Ok(false)
            }
        }
    }
}

fn append_one<E: Etcd>(
    alloc: Global,
    prefix: &str,
    term: &str,
    etcd: &mut E,
    seat: &mut Seat,
    block: &[u8],
) -> Result<bool, AllocError>
    ensures { IfOk result (λ kept. kept ≡ true → Done E.may_post prefix.now term.now (Append block.now) etcd.old seat.old etcd.new seat.new) }
{
    let block = List::from_vec(block.to_vec(alloc)?);
    done(alloc, prefix, term, etcd, seat, Wish::Append(block))
}
