//! Holders of many allocations, beside the plain program of whole lists.
ghost use Rattle.std.specs.Prelude.{◌≡◌, ◌<◌, ◌≤◌, ℕ, AllPairs, IfOk, length};

mod whole_lists;

use crate::holders::whole_lists::WholeLists;
use handover::{Holders, HoldersError};
use lists::{List, Plain};
use std::alloc::{AllocError, Global};
use std::test::Fail;

/// The list that gives each target to the collector at its place, where 0 is nobody.
fn list_of(alloc: Global, collectors: &[u32]) -> Result<List<(u32, u32)>, AllocError>
    requires { length collectors.now ≤ 16 }
    ensures { IfOk result (λ l. AllPairs (λ (a b : ℕ × ℕ). a.0 < b.0) l) }
{
    let mut pairs = Vec::new(alloc);
    for (target, collector) in collectors.iter().enumerate() {
        if *collector != 0 {
            pairs.push((target as u32, *collector))?;
        }
    }
    Ok(List::from_vec(pairs))
}

/// Publishes the same list twice, as spans and as a whole.
fn publish_both(
    alloc: Global,
    holders: &mut Holders,
    whole: &mut WholeLists,
    collectors: &[u32],
) -> Result<u32, HoldersError>
    requires { length collectors.now ≤ 16 }
{
    match list_of(alloc, collectors) {
        Ok(list) => publish_list(holders, whole, list),
        Err(_) => Err(HoldersError::Memory),
    }
}

fn publish_list(
    holders: &mut Holders,
    whole: &mut WholeLists,
    list: List<(u32, u32)>,
) -> Result<u32, HoldersError>
    requires { AllPairs (λ (a b : ℕ × ℕ). a.0 < b.0) list }
{
    match whole.publish(list.copy()) {
        Ok(()) => holders.publish(list),
        Err(_) => Err(HoldersError::Memory),
    }
}

/// Whether both name the same holders and the same targets at a number that is given.
fn agree(
    alloc: Global,
    holders: &Holders,
    whole: &WholeLists,
    number: u32,
) -> Result<bool, HoldersError> {
    for id in 0..8 {
        if !agree_on(alloc, holders, whole, number, id)? {
            return Ok(false);
        }
    }
    Ok(true)
}

fn agree_on(
    alloc: Global,
    holders: &Holders,
    whole: &WholeLists,
    number: u32,
    id: u32,
) -> Result<bool, HoldersError> {
    let holder = holders.holder(number, id) == whole.holder(number, id);
    match whole.held(alloc, number, id) {
        Ok(held) => match holds(holders, number, id, held.as_slice()) {
            Ok(same) => Ok(holder && same),
            Err(error) => Err(error),
        },
        Err(_) => Err(HoldersError::Memory),
    }
}

/// The next number of a sequence that looks random.
fn next(state: u32) -> u32 {
    state.wrapping_mul(1_103_515_245).wrapping_add(12_345) % 2_147_483_648
}

/// Whether both say the same of the numbers up to this one.
fn agree_up_to(
    alloc: Global,
    holders: &Holders,
    whole: &WholeLists,
    most: u32,
) -> Result<bool, HoldersError> {
    for number in 0..most.saturating_add(1) {
        if !agree(alloc, holders, whole, number)? {
            return Ok(false);
        }
    }
    Ok(true)
}

#[test]
fn each_number_keeps_its_holders(rt: HostRuntime) -> Result<(), Fail> {
    assert!(rt; keeps_thousand(rt.alloc())?);
    Ok(())
}

fn keeps_thousand(alloc: Global) -> Result<bool, HoldersError> {
    let mut holders = Holders::open(alloc);
    let mut whole = WholeLists::open(alloc);
    match publish_thousand(alloc, &mut holders, &mut whole) {
        Ok(numbered) => are_kept(alloc, &holders, &whole, numbered),
        Err(error) => Err(error),
    }
}

fn are_kept(
    alloc: Global,
    holders: &Holders,
    whole: &WholeLists,
    numbered: bool,
) -> Result<bool, HoldersError> {
    let kept = numbered && agree_up_to(alloc, holders, whole, 1000)?;
    Ok(kept && are_thousand(holders) && knows_no_other(holders)?)
}

/// Whether a thousand allocations got the numbers 1 to 1,000.
fn publish_thousand(
    alloc: Global,
    holders: &mut Holders,
    whole: &mut WholeLists,
) -> Result<bool, HoldersError> {
    for n in 1..1001u32 {
        let third = if n % 10 == 0 { 3 } else { 0 };
        if publish_both(alloc, holders, whole, &[1 + n % 2, third])? != n {
            return Ok(false);
        }
    }
    Ok(true)
}

fn are_thousand(holders: &Holders) -> bool {
    for n in 1..1001u32 {
        if holders.holder(n, 0) != Some(1 + n % 2) {
            return false;
        }
    }
    holders.holder(500, 1) == Some(3)
        && holders.holder(501, 1).is_none()
        && holders.holder(0, 0).is_none()
        && holders.holder(1001, 0).is_none()
        && holders.held_since(0) == Some(1000)
        && holders.held_since(2).is_none()
        && holders.current_pairs() == [(0, 1), (1, 3)].as_slice()
}

fn knows_no_other(holders: &Holders) -> Result<bool, HoldersError> {
    Ok(holds(holders, 0, 1, &[])? && is_unknown(holders.held(1001, 1)))
}

/// Whether the collector of an id held these targets at a number.
fn holds(holders: &Holders, number: u32, id: u32, targets: &[u32]) -> Result<bool, HoldersError> {
    match holders.held(number, id) {
        Ok(held) => Ok(held.as_slice() == targets),
        Err(error) => Err(error),
    }
}

#[test]
fn exchanged_collectors_are_told_apart(rt: HostRuntime) -> Result<(), Fail> {
    assert!(rt; tells_apart(rt.alloc())?);
    Ok(())
}

fn tells_apart(alloc: Global) -> Result<bool, HoldersError> {
    let mut holders = Holders::open(alloc);
    let mut whole = WholeLists::open(alloc);
    match publish_sixty(alloc, &mut holders, &mut whole) {
        Ok(()) => Ok(agree_since(&holders, &whole) && agree_up_to(alloc, &holders, &whole, 60)?),
        Err(error) => Err(error),
    }
}

/// Whether both say the same of since when each target is held.
fn agree_since(holders: &Holders, whole: &WholeLists) -> bool {
    for id in 0..8 {
        if holders.held_since(id) != whole.held_since(holders.current(), id) {
            return false;
        }
    }
    true
}

/// Publishes sixty allocations that look random.
fn publish_sixty(
    alloc: Global,
    holders: &mut Holders,
    whole: &mut WholeLists,
) -> Result<(), HoldersError> {
    let mut state = 1;
    for _ in 0..60 {
        let mut collectors = [0u32; 6];
        for collector in collectors.iter_mut() {
            state = next(state);
            *collector = state / 65_536 % 4;
        }
        publish_both(alloc, holders, whole, collectors.as_slice())?;
    }
    Ok(())
}

#[test]
fn takes_only_what_is_published(rt: HostRuntime) -> Result<(), Fail> {
    assert!(rt; takes_one(rt.alloc())?);
    Ok(())
}

fn takes_one(alloc: Global) -> Result<bool, HoldersError> {
    let mut holders = Holders::open(alloc);
    let was_empty = holders.current() == 0 && holders.current_pairs().is_empty();
    match publish(alloc, &mut holders) {
        Ok(()) => takes_once(&mut holders, was_empty),
        Err(error) => Err(error),
    }
}

fn publish(alloc: Global, holders: &mut Holders) -> Result<(), HoldersError> {
    match list_of(alloc, &[7, 0, 7]) {
        Ok(list) => published(holders.publish(list)),
        Err(_) => Err(HoldersError::Memory),
    }
}

fn published(number: Result<u32, HoldersError>) -> Result<(), HoldersError> {
    match number {
        Ok(_) => Ok(()),
        Err(error) => Err(error),
    }
}

fn takes_once(holders: &mut Holders, was_empty: bool) -> Result<bool, HoldersError> {
    let was_taken = holders.taken(7);
    holders.take(7, 1)?;
    holders.take(8, 0)?;
    let unknown = holders.taken(7) == 1 && is_unknown(holders.take(7, 2));
    let published = was_taken == 0 && holders.current() == 1 && holders.taken(7) == 1;
    Ok(was_empty && unknown && published && holds(holders, 1, 7, &[0, 2])?)
}

fn is_unknown<T: Drop>(answer: Result<T, HoldersError>) -> bool {
    matches!(answer, Err(HoldersError::UnknownNumber))
}
