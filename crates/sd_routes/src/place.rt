//! The places that paths name, their paths, and their methods.
ghost use Rattle.std.specs.Prelude.{◌≡◌, [], IsTrue, OnOk, option_map};
ghost use Rattle.http_header.specs.FieldValue.{is_visible_text};
ghost use Rattle.sd_routes.specs.Places.{allowed_at, changed_by, desk_rows, is_shown, job_rows, purpose_of, route_rows};

use crate::purpose::Purpose;
use matchit::{InsertError, Router};

/// What a path names.
#[derive(Clone, Copy, Debug, PartialEq, Eq)]
pub enum Place {
    Status,
    ScrapeConfigs,
    Jobs,
    Job,
    JobTargets,
    Uncovered,
    Targets,
    Acknowledged,
    Allocations,
    Books,
    Certificate,
    Collectors,
    Collector,
    Drain,
    Release,
    Limits,
    Reports,
    Healthy,
    Live,
    Ready,
    Leading,
    Metrics,
    Reload,
    Quit,
}

impl Place {
    /// The methods that a place answers, as the header `allow` has them (RFC 9110, section 10.2.1).
    pub fn allowed(self) -> &'static str
        ensures methods { result.now ≡ allowed_at self }
        ensures visible { IsTrue (is_visible_text result.now) }
    {
        match self {
            Place::Status
            | Place::ScrapeConfigs
            | Place::Jobs
            | Place::Job
            | Place::JobTargets
            | Place::Uncovered
            | Place::Targets
            | Place::Acknowledged
            | Place::Allocations
            | Place::Books
            | Place::Certificate
            | Place::Healthy
            | Place::Live
            | Place::Ready
            | Place::Leading
            | Place::Metrics => "GET, HEAD",
            Place::Collectors => "GET, HEAD, POST",
            Place::Collector => "GET, HEAD, DELETE",
            Place::Drain | Place::Release | Place::Reports | Place::Reload | Place::Quit => "POST",
            Place::Limits => "PUT",
        }
    }

    /// What a method is for at a place. None where the place has not the method.
    pub(crate) fn purpose(self, method: &str) -> Option<Purpose>
        ensures { result ≡ purpose_of self method.now }
    {
        if self.is_shown() {
            match method {
                "GET" => return Some(Purpose::Show),
                "HEAD" => return Some(Purpose::ShowHead),
                _ => {}
            }
        }
        match self.changed_by() {
            Some(changing) if method == changing => Some(Purpose::Change),
            _ => None,
        }
    }

    /// Whether a place has something to show.
    fn is_shown(self) -> bool
        ensures { result ≡ is_shown self }
    {
        match self {
            Place::Status
            | Place::ScrapeConfigs
            | Place::Jobs
            | Place::Job
            | Place::JobTargets
            | Place::Uncovered
            | Place::Targets
            | Place::Acknowledged
            | Place::Allocations
            | Place::Books
            | Place::Certificate
            | Place::Collectors
            | Place::Collector
            | Place::Healthy
            | Place::Live
            | Place::Ready
            | Place::Leading
            | Place::Metrics => true,
            Place::Drain
            | Place::Release
            | Place::Limits
            | Place::Reports
            | Place::Reload
            | Place::Quit => false,
        }
    }

    /// The method that changes something at a place, if there is one.
    fn changed_by(self) -> Option<&'static str>
        ensures { option_map (λ s. s.now) result ≡ changed_by self }
    {
        match self {
            Place::Status
            | Place::ScrapeConfigs
            | Place::Jobs
            | Place::Job
            | Place::JobTargets
            | Place::Uncovered
            | Place::Targets
            | Place::Acknowledged
            | Place::Allocations
            | Place::Books
            | Place::Certificate
            | Place::Healthy
            | Place::Live
            | Place::Ready
            | Place::Leading
            | Place::Metrics => None,
            Place::Collectors | Place::Drain | Place::Release | Place::Reports => Some("POST"),
            Place::Reload | Place::Quit => Some("POST"),
            Place::Collector => Some("DELETE"),
            Place::Limits => Some("PUT"),
        }
    }
}

/// Puts a row a path into a router that is empty. What stands in braces is one segment of a path.
pub(crate) fn put_rows(router: &mut Router<Place>) -> Result<(), InsertError>
    requires { router.old ≡ [] }
    ensures { OnOk result (router.new ≡ route_rows) }
{
    put_job_rows(router)?;
    put_desk_rows(router)?;
    put_service_rows(router)
}

// The rows of the service itself.
fn put_service_rows(router: &mut Router<Place>) -> Result<(), InsertError>
    requires { router.old ≡ desk_rows }
    ensures { OnOk result (router.new ≡ route_rows) }
{
    router.insert("/-/healthy", Place::Healthy)?;
    router.insert("/livez", Place::Live)?;
    router.insert("/-/ready", Place::Ready)?;
    router.insert("/readyz", Place::Ready)?;
    router.insert("/-/leading", Place::Leading)?;
    router.insert("/metrics", Place::Metrics)?;
    router.insert("/-/reload", Place::Reload)?;
    router.insert("/-/quit", Place::Quit)
}

// The rows of the desk, behind those of jobs.
fn put_desk_rows(router: &mut Router<Place>) -> Result<(), InsertError>
    requires { router.old ≡ job_rows }
    ensures { OnOk result (router.new ≡ desk_rows) }
{
    router.insert("/acknowledged", Place::Acknowledged)?;
    router.insert("/allocations", Place::Allocations)?;
    router.insert("/books", Place::Books)?;
    router.insert("/certificate", Place::Certificate)?;
    router.insert("/collectors", Place::Collectors)?;
    router.insert("/collectors/{id}", Place::Collector)?;
    router.insert("/collectors/{id}/drain", Place::Drain)?;
    router.insert("/collectors/{id}/release", Place::Release)?;
    router.insert("/collectors/{id}/limits", Place::Limits)?;
    router.insert("/reports", Place::Reports)
}

// The rows of the page for people, and of jobs and their targets.
fn put_job_rows(router: &mut Router<Place>) -> Result<(), InsertError>
    requires { router.old ≡ [] }
    ensures { OnOk result (router.new ≡ job_rows) }
{
    router.insert("/", Place::Status)?;
    router.insert("/scrape_configs", Place::ScrapeConfigs)?;
    router.insert("/jobs", Place::Jobs)?;
    router.insert("/jobs/{job}", Place::Job)?;
    router.insert("/jobs/{job}/targets", Place::JobTargets)?;
    router.insert("/jobs/{job}/uncovered", Place::Uncovered)?;
    router.insert("/targets", Place::Targets)
}
