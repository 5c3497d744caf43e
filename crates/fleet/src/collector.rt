//! Collectors that joined and did not leave.
ghost use Rattle.std.specs.Prelude.{◌≡◌, ◌==◌, ◌&&◌, ◌<◌, not, filter, map, AllPairs};
ghost use Rattle.std.specs.List.{list_any};
ghost use Rattle.fleet.specs.Fleet.{id_named};
ghost use Rattle.fleet.specs.Changes.{with_draining_at, with_limits_at};
ghost use Rattle.fleet.specs.declared.collector.Collector.{Collector};

use reach_rules::{CollectorName, OwnLimits, Reach};

/// A collector that joined and did not leave.
#[derive(Debug, Drop)]
pub struct Collector {
    pub id: u32,
    pub name: CollectorName,
    pub reach: Reach,
    /// Whether it is being emptied before it stops.
    pub draining: bool,
    /// How many targets of a job it takes at most, by the name of the job, where 0 is no limit.
    pub limits: OwnLimits,
}

/// The number of the collector of a name.
pub(crate) fn id_named(collectors: &[Collector], name: &str) -> Option<u32>
    ensures { result ≡ id_named collectors.now name.now }
{
    for collector in collectors {
        if collector.name.as_str() == name {
            return Some(collector.id);
        }
    }
    None
}

/// Whether a collector has the number.
pub(crate) fn has_id(collectors: &[Collector], id: u32) -> bool
    ensures { result ≡ list_any (λ (c : Collector). c.id == id) collectors.now }
{
    collectors.iter().any(|collector| collector.id == id)
}

/// Whether a collector of the number drains.
pub(crate) fn is_draining(collectors: &[Collector], id: u32) -> bool
    ensures { result ≡ list_any (λ (c : Collector). (c.id == id) && c.draining) collectors.now }
{
    collectors
        .iter()
        .any(|collector| collector.id == id && collector.draining)
}

/// The collector of a number drains from now on. It takes no memory.
pub(crate) fn begin_draining(collectors: &mut [Collector], id: u32)
    ensures { collectors.new ≡ map (with_draining_at id) collectors.old }
{
    for collector in collectors.iter_mut() {
        if collector.id == id {
            collector.draining = true;
        }
    }
}

/// The collector of a number has these limits, in place of all that it had. It takes no memory.
pub(crate) fn replace_limits(collectors: &mut [Collector], id: u32, limits: OwnLimits)
    requires { AllPairs (λ (a b : Collector). a.id < b.id) collectors.old }
    ensures { collectors.new ≡ map (with_limits_at id limits) collectors.old }
{
    for collector in collectors.iter_mut() {
        if collector.id == id {
            collector.limits = limits;
            return;
        }
    }
}

/// Takes the collector of a number out.
pub(crate) fn take_out(collectors: &mut Vec<Collector>, id: u32)
    ensures { collectors.new.items ≡ filter (λ (c : Collector). not (c.id == id)) collectors.old.items }
{
    collectors.retain(|collector| is_other(collector, id));
}

fn is_other(collector: &Collector, id: u32) -> bool
    ensures { result ≡ not (collector.now.id == id) }
{
    collector.id != id
}
