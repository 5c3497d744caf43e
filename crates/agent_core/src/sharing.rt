//! Whose a scrape is where targets share a series. Prometheus tells of each target that it scrapes when its last scrape began.
ghost use Rattle.std.specs.Prelude.{◌≡◌, ◌++◌, IfOk, OnOk, count_by, position};
ghost use Rattle.agent_core.specs.declared.sharing.LastScrape.{LastScrape};
ghost use Rattle.agent_core.specs.declared.slot.Point.{Point};
ghost use Rattle.agent_core.specs.Sharing.{has_one, is_job, is_near, is_of, is_point, last_at, offer_of, offers, offers_of, only, owner_of, scraped_at};

use crate::adding::add;
use crate::said::{Said, points_of};
use crate::slot::Point;
use crate::target::{Listed, Series};
use crate::url::{Url, is_url};
use indexmap::IndexMap;
use lists::List;
use std::alloc::{AllocError, Global};

/// A scrape began within so many milliseconds of the time at which it is stored.
pub const SPAN: u64 = 1;

/// Of no other target one may have begun within so many.
const CLEARANCE: u64 = 2;

/// The last scrape of a target that Prometheus scrapes.
#[derive(Drop)]
pub struct LastScrape {
    /// The index of the job, where Prometheus names one of those that are known and has stored the scrape. It is nobody's otherwise.
    pub job: Option<u32>,
    pub url: Url,
    /// When it began, in milliseconds. 0 where there was none yet.
    pub time: u64,
}

/// What Prometheus said of each series that targets share: the last scrapes of all that have it.
pub type Lasts = IndexMap<Series, List<LastScrape>>;

/// A point, and the place of the target whose it is.
#[derive(Clone, Copy)]
pub(crate) struct Offer {
    pub(crate) place: usize,
    pub(crate) point: Point,
}

/// The points that are somebody's, series by series.
pub(crate) fn offers(
    alloc: Global,
    targets: &[Listed],
    said: &Said,
    lasts: &Lasts,
) -> Result<Vec<Offer>, AllocError>
    ensures { IfOk result (λ v. v.items ≡ offers said.now.entries targets.now lasts.now.entries) }
{
    let mut all = Vec::new(alloc);
    for (series, lasts) in lasts.iter() {
        let points = points_of(said, series);
        add_offers(&mut all, series, targets, lasts.as_slice(), points)?;
    }
    Ok(all)
}

/// Adds the points of a series that are somebody's.
fn add_offers(
    all: &mut Vec<Offer>,
    series: &Series,
    targets: &[Listed],
    lasts: &[LastScrape],
    points: &[Point],
) -> Result<(), AllocError>
    ensures { OnOk result (all.new.items ≡ all.old.items ++ offers_of series.now targets.now lasts.now points.now points.now) }
{
    for point in points {
        let offer = offer_of(series, targets, lasts, points, point);
        add(all, offer)?;
    }
    Ok(())
}

fn offer_of(
    series: &Series,
    targets: &[Listed],
    lasts: &[LastScrape],
    points: &[Point],
    point: &Point,
) -> Option<Offer>
    ensures { result ≡ offer_of series.now targets.now lasts.now points.now point.now }
{
    let place = owner_of(series, targets, lasts, points, point.time)?;
    Some(Offer {
        place,
        point: *point,
    })
}

/// The place of the target whose the point of a series at a time is.
fn owner_of(
    series: &Series,
    targets: &[Listed],
    lasts: &[LastScrape],
    points: &[Point],
    time: u64,
) -> Option<usize>
    ensures { result ≡ owner_of series.now targets.now lasts.now points.now time }
{
    let last = lasts.get(last_at(lasts, time)?)?;
    if !is_point(points, last.time, time) {
        return None;
    }
    scraped_at(series, targets, lasts, last)
}

/// The place of the only last scrape that began about a time.
fn last_at(lasts: &[LastScrape], time: u64) -> Option<usize>
    ensures { result ≡ last_at lasts.now time }
{
    if count_about(lasts, time) == 1 {
        place_about(lasts, time)
    } else {
        None
    }
}

fn place_about(lasts: &[LastScrape], time: u64) -> Option<usize>
    ensures { result ≡ position (λ (last : LastScrape). is_near 2 last.time time) lasts.now }
{
    lasts
        .iter()
        .position(|last| is_near(CLEARANCE, last.time, time))
}

/// How many last scrapes began about a time.
fn count_about(lasts: &[LastScrape], time: u64) -> usize
    ensures { result ≡ count_by (λ (last : LastScrape). is_near 2 last.time time) lasts.now }
{
    lasts
        .iter()
        .filter(|last| is_near(CLEARANCE, last.time, time))
        .count()
}

/// Whether a scrape that began at a time is the point at another one: no other point may be it.
fn is_point(points: &[Point], began: u64, time: u64) -> bool
    ensures { result ≡ is_point points.now began time }
{
    is_near(SPAN, began, time) && count_near(points, began) == 1
}

fn count_near(points: &[Point], began: u64) -> usize
    ensures { result ≡ count_by (λ (point : Point). is_near 1 began point.time) points.now }
{
    points
        .iter()
        .filter(|point| is_near(SPAN, began, point.time))
        .count()
}

/// The place of the target that a last scrape is of, where it is of no other, and no other one is of that target.
fn scraped_at(
    series: &Series,
    targets: &[Listed],
    lasts: &[LastScrape],
    last: &LastScrape,
) -> Option<usize>
    ensures { result ≡ scraped_at series.now targets.now lasts.now last.now }
{
    let place = held_by(series, targets, last)?;
    if has_one(series, targets, lasts, place) {
        Some(place)
    } else {
        None
    }
}

/// The place of the only target that a last scrape is of.
fn held_by(series: &Series, targets: &[Listed], last: &LastScrape) -> Option<usize>
    ensures { result ≡ only (is_of series.now last.now) targets.now }
{
    if count_held(series, targets, last) == 1 {
        place_held(series, targets, last)
    } else {
        None
    }
}

fn place_held(series: &Series, targets: &[Listed], last: &LastScrape) -> Option<usize>
    ensures { result ≡ position (is_of series.now last.now) targets.now }
{
    targets
        .iter()
        .position(|listed| is_of(series, last, listed))
}

fn count_held(series: &Series, targets: &[Listed], last: &LastScrape) -> usize
    ensures { result ≡ count_by (is_of series.now last.now) targets.now }
{
    targets
        .iter()
        .filter(|listed| is_of(series, last, listed))
        .count()
}

/// Whether the target at a place has no other last scrape.
fn has_one(series: &Series, targets: &[Listed], lasts: &[LastScrape], place: usize) -> bool
    ensures { result ≡ has_one series.now targets.now lasts.now place }
{
    match targets.get(place) {
        Some(listed) => count_of(series, lasts, listed) == 1,
        None => false,
    }
}

/// How many last scrapes are of a target.
fn count_of(series: &Series, lasts: &[LastScrape], listed: &Listed) -> usize
    ensures { result ≡ count_by (λ (last : LastScrape). is_of series.now last listed.now) lasts.now }
{
    lasts
        .iter()
        .filter(|last| is_of(series, last, listed))
        .count()
}

/// Whether a last scrape of a series is of this target, which shares it.
fn is_of(series: &Series, last: &LastScrape, listed: &Listed) -> bool
    ensures { result ≡ is_of series.now last.now listed.now }
{
    listed.shared
        && is_job(last.job, listed.job)
        && listed.series == *series
        && is_url(&listed.url, &last.url)
}

fn is_job(job: Option<u32>, index: u32) -> bool
    ensures { result ≡ is_job job index }
{
    match job {
        Some(job) => job == index,
        None => false,
    }
}

/// Whether two times are within so many milliseconds.
fn is_near(span: u64, one: u64, other: u64) -> bool
    ensures { result ≡ is_near span one other }
{
    one.saturating_sub(other) <= span && other.saturating_sub(one) <= span
}
