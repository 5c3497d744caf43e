//! What Prometheus said of its scrapes.
ghost use Rattle.std.specs.Prelude.{◌≡◌};
ghost use Rattle.agent_core.specs.Choices.{points_of};

use crate::slot::Point;
use crate::target::Series;
use indexmap::IndexMap;
use lists::List;

/// What Prometheus said of each series: its scrapes, in order of time.
pub type Said = IndexMap<Series, List<Point>>;

/// The scrapes of a series.
pub(crate) fn points_of<'a>(said: &'a Said, series: &Series) -> &'a [Point]
    ensures { result.now ≡ points_of said.now.entries series.now }
{
    match said.get(series) {
        Some(points) => points.as_slice(),
        None => &[],
    }
}
