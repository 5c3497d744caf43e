//! Whether Prometheus follows what is served.
ghost use Rattle.std.specs.Prelude.{◌≡◌, [], IfOk, OnOk};
ghost use Rattle.indexmap.specs.IndexMap.{insert_entry};
ghost use Rattle.agent_core.specs.Targets.{same_series};
ghost use Rattle.agent_turns.specs.Following.{all_let_go, held_from, left, lets_go, served_from, with_one, with_place};

use agent_core::{Listed, Series};
use indexmap::{IndexMap, IndexSet};
use lists::Plain;
use std::alloc::{AllocError, Global};

/// Whether of none of the series that are held more targets are scraped by Prometheus than are served. Those that are served are named by their
/// places; each target that is scraped is named by its series.
pub fn lets_go(
    alloc: Global,
    targets: &[Listed],
    served: &[usize],
    scraped: &[Series],
) -> Result<bool, AllocError>
    ensures { IfOk result (λ b. b ≡ lets_go targets.now served.now scraped.now) }
{
    let held = held_in(alloc, targets)?;
    let mut kept = served_in(alloc, targets, served)?;
    all_let_go(&held, &mut kept, scraped)
}

/// The series of targets.
fn held_in(alloc: Global, targets: &[Listed]) -> Result<IndexSet<Series>, AllocError>
    ensures { IfOk result (λ s. s.keys ≡ held_from [] targets.now) }
{
    let mut all = IndexSet::new(alloc);
    for listed in targets {
        all.insert(listed.series.copy()?)?;
    }
    Ok(all)
}

/// How many of the targets at these places have each series.
fn served_in(
    alloc: Global,
    targets: &[Listed],
    served: &[usize],
) -> Result<IndexMap<Series, usize>, AllocError>
    ensures { IfOk result (λ m. m.entries ≡ served_from targets.now [] served.now) }
{
    let mut kept = IndexMap::new(alloc);
    for place in served {
        add_at(&mut kept, targets, *place)?;
    }
    Ok(kept)
}

/// Counts the series of the target at a place.
fn add_at(
    kept: &mut IndexMap<Series, usize>,
    targets: &[Listed],
    place: usize,
) -> Result<(), AllocError>
    ensures { OnOk result (kept.new.entries ≡ with_place targets.now kept.old.entries place) }
{
    if let Some(listed) = targets.get(place) {
        add_one(kept, &listed.series)?;
    }
    Ok(())
}

/// One more of a series.
fn add_one(kept: &mut IndexMap<Series, usize>, series: &Series) -> Result<(), AllocError>
    ensures { OnOk result (kept.new.entries ≡ with_one kept.old.entries series.now) }
{
    let more = left(kept, series).saturating_add(1);
    set(kept, series, more)
}

/// How many of a series are left.
fn left(kept: &IndexMap<Series, usize>, series: &Series) -> usize
    ensures { result ≡ left kept.now.entries series.now }
{
    match kept.get(series) {
        Some(count) => *count,
        None => 0,
    }
}

fn set(kept: &mut IndexMap<Series, usize>, series: &Series, count: usize) -> Result<(), AllocError>
    ensures { OnOk result (kept.new.entries ≡ insert_entry same_series kept.old.entries series.now count) }
{
    kept.insert(series.copy()?, count)?;
    Ok(())
}

/// Whether of each series that is held no more targets are scraped than are left.
fn all_let_go(
    held: &IndexSet<Series>,
    kept: &mut IndexMap<Series, usize>,
    scraped: &[Series],
) -> Result<bool, AllocError>
    ensures { IfOk result (λ b. b ≡ all_let_go held.now.keys kept.old.entries scraped.now) }
{
    for series in scraped {
        if held.contains(series) {
            let count = left(kept, series);
            if count == 0 {
                return Ok(false);
            }
            set(kept, series, count - 1)?;
        }
    }
    Ok(true)
}
