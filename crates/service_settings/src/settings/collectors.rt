//! The collectors that the configuration names.
ghost use Rattle.std.specs.Prelude.{◌≡◌, [], IfOk, option_map};
ghost use Rattle.serde_json.specs.View.{view, items_view};
ghost use Rattle.service_settings.specs.Reading.{Gives};
ghost use Rattle.service_settings.specs.Collectors.{limits_or_none as limits_or_none_in, collector_said, is_taken as is_taken_by, with_collector, collectors_from, collectors_said};

use crate::error::{Member, SettingsError};
use crate::reading::items_in;
use crate::settings::members::{Kind, check_members};
use json_values::{FromJson, member};
use lists::List;
use reach_rules::{CollectorName, OwnLimits, Reach};
use serde_json::Value;
use std::alloc::{AllocError, Global};

/// A collector: what it joins with.
#[derive(Debug, Drop)]
pub struct Collector {
    pub name: CollectorName,
    pub reach: Reach,
    pub limits: OwnLimits,
}

/// The collectors, whose names differ.
pub(crate) fn collectors_in(
    alloc: Global,
    found: Option<&Value>,
) -> Result<List<Collector>, SettingsError>
    ensures { Gives (λ c. c) result (collectors_said (option_map (λ v. view v.now) found.entry)) }
{
    let items = items_in(Member::Collectors, found)?;
    each_collector(alloc, items)
}

fn each_collector(alloc: Global, items: &[Value]) -> Result<List<Collector>, SettingsError>
    ensures { Gives (λ c. c) result (collectors_from 0 [] (items_view items.now)) }
{
    let mut collectors = List::new(alloc);
    for (index, item) in items.iter().enumerate() {
        add_collector(alloc, &mut collectors, index, item)?;
    }
    Ok(collectors)
}

/// Adds one more collector.
fn add_collector(
    alloc: Global,
    collectors: &mut List<Collector>,
    index: usize,
    item: &Value,
) -> Result<(), SettingsError>
    ensures { Gives (λ _. collectors.new) result (with_collector index collectors.old (view item.now)) }
{
    let collector = collector_in(alloc, index, item)?;
    if is_taken(collectors.as_slice(), collector.name.as_str()) {
        return Err(SettingsError::RepeatedCollector(index));
    }
    collectors.push(collector)?;
    Ok(())
}

/// Whether a collector has the name.
fn is_taken(collectors: &[Collector], name: &str) -> bool
    ensures { result ≡ is_taken_by collectors.now name.now }
{
    for collector in collectors {
        if collector.name.as_str() == name {
            return true;
        }
    }
    false
}

#[tactic(auto, unfolding(crate::specs::Collectors::collector_said))]
fn collector_in(alloc: Global, index: usize, value: &Value) -> Result<Collector, SettingsError>
    ensures { Gives (λ c. c) result (collector_said index (view value.now)) }
{
    check_members(alloc, Kind::Collector, Member::Collector(index), value)?;
    let name = member(alloc, value, "name")?;
    let name = name.ok_or(SettingsError::Shape(Member::CollectorName(index)))?;
    let reach = member(alloc, value, "reach")?;
    let reach = reach.ok_or(SettingsError::Shape(Member::CollectorReach(index)))?;
    let limits = limits_or_none(alloc, value.get("limits"))?;
    let limits = limits.ok_or(SettingsError::Shape(Member::CollectorLimits(index)))?;
    Ok(Collector {
        name,
        reach,
        limits,
    })
}

/// A collector's own limits: it has none where they are left out.
pub(crate) fn limits_or_none(
    alloc: Global,
    found: Option<&Value>,
) -> Result<Option<OwnLimits>, AllocError>
    ensures { IfOk result (λ o. o ≡ limits_or_none_in (option_map (λ v. view v.now) found.entry)) }
{
    match found {
        Some(value) => FromJson::read(alloc, value),
        None => Ok(Some(OwnLimits::none(alloc))),
    }
}
