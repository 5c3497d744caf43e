//! What needs attention.
ghost use Rattle.std.specs.Prelude.{◌≡◌};
ghost use Rattle.std.specs.List.{count_by};
ghost use Rattle.service_pages.specs.Needs.{is_needed, needs};

use crate::counted::Counted;

/// What may need attention, in the order in which the page tells it.
#[derive(Clone, Copy, PartialEq, Eq)]
pub enum Need {
    /// The journal is broken.
    Journal,
    /// The journal's device does not come back.
    Device,
    /// Targets have no collector.
    Uncovered,
    /// Nothing is discovered at all.
    NoTargets,
    /// The configuration that was read last is not followed.
    Configuration,
    /// Sources fail.
    Sources,
    /// Collectors are behind.
    Behind,
    /// Targets wait for collectors.
    HandingOver,
    /// There is no place for another connection.
    Connections,
}

/// How many there are.
const NEED_COUNT: usize = Need::Connections as usize + 1;

/// All of them, in order.
pub(crate) const NEEDS: [Need; NEED_COUNT] = [
    Need::Journal,
    Need::Device,
    Need::Uncovered,
    Need::NoTargets,
    Need::Configuration,
    Need::Sources,
    Need::Behind,
    Need::HandingOver,
    Need::Connections,
];

/// Whether something needs attention.
pub(crate) fn is_needed(need: Need, counted: &Counted) -> bool
    ensures { result ≡ is_needed counted.now need }
{
    match need {
        Need::Journal => counted.is_broken,
        Need::Device => counted.is_hanging,
        Need::Uncovered => counted.uncovered > 0,
        Need::NoTargets => counted.live == 0,
        Need::Configuration => !counted.is_followed,
        Need::Sources => counted.failing > 0,
        Need::Behind => counted.behind > 0,
        Need::HandingOver => counted.handing_over > 0,
        Need::Connections => counted.is_full,
    }
}

/// How many things need attention.
pub fn count_needs(counted: &Counted) -> usize
    ensures { result ≡ needs counted.now }
{
    count_in(&NEEDS, counted)
}

fn count_in(needs: &[Need], counted: &Counted) -> usize
    ensures { result ≡ count_by (is_needed counted.now) needs.now }
{
    let mut count = 0;
    for need in needs {
        if is_needed(*need, counted) {
            count += 1;
        }
    }
    count
}
