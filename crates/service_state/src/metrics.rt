//! The metrics of a service.
use crate::counts::{Counts, EventCounts, RequestCounts, STATUSES};
use crate::kinds::{DONE, KINDS};
use crate::notes::Notes;
use crate::process_figures::ProcessFigures;
use crate::round_books::RoundBooks;
use crate::service_state::ServiceState;
use exposition::{Exposition, Kind};
use fleet_events::{CollectorId, REFUSALS};
use lists::Text;
use sd_routes::ROUTES;
use service_pages::{CollectorFigures, Figures, JobFigures, ListCounts, LoadNote, SourceNote};
use std::alloc::{AllocError, Global};

/// The metrics of a service, in the text exposition format.
pub fn metrics_page(
    alloc: Global,
    figures: &Figures,
    notes: &Notes,
    state: &ServiceState,
) -> Result<Text, AllocError> {
    let mut page = Exposition::new(alloc);
    if let Err(refused) = write_page(&mut page, alloc, figures, notes, state) {
        drop(page);
        return Err(refused);
    }
    match page.into_string() {
        Some(text) => Ok(Text::from_string(text)),
        None => Err(AllocError),
    }
}

fn write_page(
    page: &mut Exposition,
    alloc: Global,
    figures: &Figures,
    notes: &Notes,
    state: &ServiceState,
) -> Result<(), AllocError> {
    write_jobs(page, figures.jobs.as_slice())?;
    write_collectors(page, figures.collectors.as_slice())?;
    write_last_takes(page, figures.collectors.as_slice(), notes.asked.as_slice())?;
    write_loads(page, figures.collectors.as_slice(), notes.loads.as_slice())?;
    write_books(page, figures.jobs.as_slice(), &notes.books)?;
    write_allocation(page, figures)?;
    write_last_allocation(page, notes)?;
    write_waiting(page, figures, state)?;
    write_events(page, &notes.counts)?;
    write_requests(page, alloc, &notes.counts)?;
    write_sources(page, alloc, notes.sources.as_slice())?;
    write_state(page, state)?;
    write_journal_writes(page, notes)?;
    write_process_figures(page, &notes.process)
}

fn write_jobs(page: &mut Exposition, jobs: &[JobFigures]) -> Result<(), AllocError> {
    let live = "allocd_targets";
    page.family(
        live,
        Kind::Gauge,
        "Targets that some source of the job lists.",
    )?;
    for job in jobs {
        page.labelled_sample(live, "job", job.name.as_str(), u128::from(job.live))?;
    }
    let covered = "allocd_targets_covered";
    page.family(covered, Kind::Gauge, "Live targets that a collector holds.")?;
    for job in jobs {
        page.labelled_sample(covered, "job", job.name.as_str(), u128::from(job.covered))?;
    }
    let uncovered = "allocd_targets_uncovered";
    page.family(uncovered, Kind::Gauge, "Live targets that nobody holds.")?;
    for job in jobs {
        let count = job.live.saturating_sub(job.covered);
        page.labelled_sample(uncovered, "job", job.name.as_str(), u128::from(count))?;
    }
    write_taken(page, jobs)?;
    write_handing_over(page, jobs)
}

fn write_taken(page: &mut Exposition, jobs: &[JobFigures]) -> Result<(), AllocError> {
    let name = "allocd_targets_taken";
    page.family(
        name,
        Kind::Gauge,
        "Live targets that a collector holds and that are in the last list that it took.",
    )?;
    for job in jobs {
        page.labelled_sample(name, "job", job.name.as_str(), u128::from(job.taken))?;
    }
    Ok(())
}

fn write_handing_over(page: &mut Exposition, jobs: &[JobFigures]) -> Result<(), AllocError> {
    let name = "allocd_targets_handing_over";
    page.family(
        name,
        Kind::Gauge,
        "Live targets that the list of their collector leaves out, since another list has them.",
    )?;
    for job in jobs {
        let count = u128::from(job.handing_over);
        page.labelled_sample(name, "job", job.name.as_str(), count)?;
    }
    Ok(())
}

fn write_collectors(
    page: &mut Exposition,
    collectors: &[CollectorFigures],
) -> Result<(), AllocError> {
    let held = "allocd_collector_targets";
    page.family(held, Kind::Gauge, "Live targets that the collector holds.")?;
    for collector in collectors {
        let name = collector.name.as_str();
        page.labelled_sample(held, "collector", name, u128::from(collector.held))?;
    }
    let draining = "allocd_collector_draining";
    page.family(
        draining,
        Kind::Gauge,
        "Whether the collector is being emptied.",
    )?;
    for collector in collectors {
        let name = collector.name.as_str();
        page.labelled_sample(draining, "collector", name, u128::from(collector.draining))?;
    }
    let taken = "allocd_collector_taken_allocation";
    page.family(
        taken,
        Kind::Gauge,
        "Number of the allocation that the collector took last.",
    )?;
    for collector in collectors {
        let name = collector.name.as_str();
        page.labelled_sample(taken, "collector", name, u128::from(collector.taken))?;
    }
    write_waited_for(page, collectors)
}

fn write_last_takes(
    page: &mut Exposition,
    collectors: &[CollectorFigures],
    asked: &[(CollectorId, u64)],
) -> Result<(), AllocError> {
    let name = "allocd_collector_last_take_timestamp_seconds";
    page.family(
        name,
        Kind::Gauge,
        "When the collector asked for a list last, in seconds since 1970, or 0.",
    )?;
    for collector in collectors {
        let at = u128::from(last_take(asked, collector.id));
        page.labelled_sample(name, "collector", collector.name.as_str(), at)?;
    }
    Ok(())
}

/// When the collector of a number asked last. 0 where it did not.
fn last_take(asked: &[(CollectorId, u64)], id: CollectorId) -> u64 {
    for (other, at) in asked {
        if *other == id {
            return *at;
        }
    }
    0
}

/// What the collectors that are live still are to hold, and may, where loads are made even.
fn write_loads(
    page: &mut Exposition,
    collectors: &[CollectorFigures],
    loads: &[LoadNote],
) -> Result<(), AllocError> {
    let name = "allocd_collector_targets_even";
    page.family(
        name,
        Kind::Gauge,
        "Targets that the collector holds where loads are the most even, by the last search that made them even.",
    )?;
    for load in loads {
        if let (Some(collector), Some(even)) = (named(collectors, load.collector), load.even) {
            page.labelled_sample(name, "collector", collector, u128::from(even))?;
        }
    }
    let name = "allocd_collector_targets_cap";
    page.family(
        name,
        Kind::Gauge,
        "Targets that the collector may hold by the last search that made loads even.",
    )?;
    for load in loads {
        if let Some(collector) = named(collectors, load.collector) {
            page.labelled_sample(name, "collector", collector, u128::from(load.cap))?;
        }
    }
    Ok(())
}

/// The name of the live collector of a number.
fn named(collectors: &[CollectorFigures], id: CollectorId) -> Option<&str> {
    for collector in collectors {
        if collector.id == id {
            return Some(collector.name.as_str());
        }
    }
    None
}

fn write_waited_for(
    page: &mut Exposition,
    collectors: &[CollectorFigures],
) -> Result<(), AllocError> {
    let name = "allocd_collector_waited_for";
    page.family(
        name,
        Kind::Gauge,
        "Live targets of others that the collector's lists have until it asks again.",
    )?;
    for collector in collectors {
        let count = u128::from(collector.waited_for);
        page.labelled_sample(name, "collector", collector.name.as_str(), count)?;
    }
    Ok(())
}

fn write_allocation(page: &mut Exposition, figures: &Figures) -> Result<(), AllocError> {
    let allocation = u128::from(figures.allocation);
    write_gauge(
        page,
        "allocd_allocation",
        "Number of the current allocation.",
        allocation,
    )?;
    let round = u128::from(figures.round);
    write_gauge(page, "allocd_round", "Number of the open round.", round)?;
    let entries = figures.entries as u128;
    write_gauge(
        page,
        "allocd_journal_entries",
        "Entries of the journal since the last start, reload or renewal.",
        entries,
    )?;
    let samples = "allocd_samples_booked_total";
    write_counter(
        page,
        samples,
        "Samples of all booked reports.",
        figures.samples,
    )
}

/// What was booked in the last round that is over. 0 where none is.
fn write_books(
    page: &mut Exposition,
    jobs: &[JobFigures],
    books: &RoundBooks,
) -> Result<(), AllocError> {
    write_reported_up(page, jobs, books)?;
    write_reported_down(page, jobs, books)?;
    write_missing(page, jobs, books)
}

fn write_reported_up(
    page: &mut Exposition,
    jobs: &[JobFigures],
    books: &RoundBooks,
) -> Result<(), AllocError> {
    let name = "allocd_reports_up";
    page.family(
        name,
        Kind::Gauge,
        "Scrapes of the last round that were reported as answered.",
    )?;
    for (place, job) in jobs.iter().enumerate() {
        let count = u128::from(books.of_job(place, job.name.as_str()).up);
        page.labelled_sample(name, "job", job.name.as_str(), count)?;
    }
    Ok(())
}

fn write_reported_down(
    page: &mut Exposition,
    jobs: &[JobFigures],
    books: &RoundBooks,
) -> Result<(), AllocError> {
    let name = "allocd_reports_down";
    page.family(
        name,
        Kind::Gauge,
        "Scrapes of the last round that were reported as not answered.",
    )?;
    for (place, job) in jobs.iter().enumerate() {
        let count = u128::from(books.of_job(place, job.name.as_str()).down);
        page.labelled_sample(name, "job", job.name.as_str(), count)?;
    }
    Ok(())
}

fn write_missing(
    page: &mut Exposition,
    jobs: &[JobFigures],
    books: &RoundBooks,
) -> Result<(), AllocError> {
    let name = "allocd_reports_missing";
    page.family(
        name,
        Kind::Gauge,
        "Targets in the last lists of collectors of which the last round has no report.",
    )?;
    for (place, job) in jobs.iter().enumerate() {
        let missing = books.of_job(place, job.name.as_str()).missing.unwrap_or(0);
        let count = u128::from(missing);
        page.labelled_sample(name, "job", job.name.as_str(), count)?;
    }
    Ok(())
}

/// What holds up the handing over of targets.
fn write_waiting(
    page: &mut Exposition,
    figures: &Figures,
    state: &ServiceState,
) -> Result<(), AllocError> {
    write_gauge(
        page,
        "allocd_targets_waited_for_left",
        "Live targets that lists of collectors that left have until these are let go.",
        u128::from(figures.waited_for_left),
    )?;
    write_gauge(
        page,
        "allocd_targets_handing_over_since_seconds",
        "Since when the target is handed over that is so for longest, in seconds since 1970, or 0.",
        u128::from(state.handing_over_since()),
    )
}

/// Which program runs, and since when.
fn write_process(page: &mut Exposition, state: &ServiceState) -> Result<(), AllocError> {
    let name = "allocd_build_info";
    page.family(name, Kind::Gauge, "The version of the program.")?;
    page.labelled_sample(name, "version", state.version(), 1)?;
    if state.is_leading() {
        write_gauge(page, "allocd_leading", "Whether this instance leads.", 1)?;
    }
    write_gauge(
        page,
        "process_start_time_seconds",
        "When the process began, in seconds since 1970.",
        u128::from(state.started()),
    )
}

/// What the machine says of the process, under the names that Prometheus's own programs give it. What it does not say is left out.
fn write_process_figures(
    page: &mut Exposition,
    process: &ProcessFigures,
) -> Result<(), AllocError> {
    write_gauge_if_known(
        page,
        "process_resident_memory_bytes",
        "Resident memory size in bytes.",
        process.resident_bytes,
    )?;
    write_gauge_if_known(
        page,
        "process_virtual_memory_bytes",
        "Virtual memory size in bytes.",
        process.virtual_bytes,
    )?;
    write_gauge_if_known(
        page,
        "process_open_fds",
        "Number of open file descriptors.",
        process.open_descriptors,
    )?;
    write_gauge_if_known(
        page,
        "process_max_fds",
        "Maximum number of open file descriptors.",
        process.most_descriptors,
    )?;
    let name = "process_cpu_seconds_total";
    match process.cpu_millis {
        Some(millis) => {
            page.family(
                name,
                Kind::Counter,
                "Total user and system CPU time spent in seconds.",
            )?;
            page.seconds(name, millis)
        }
        None => Ok(()),
    }
}

fn write_gauge_if_known(
    page: &mut Exposition,
    name: &str,
    help: &str,
    value: Option<u64>,
) -> Result<(), AllocError> {
    match value {
        Some(value) => write_gauge(page, name, help, u128::from(value)),
        None => Ok(()),
    }
}

fn write_journal_writes(page: &mut Exposition, notes: &Notes) -> Result<(), AllocError> {
    let name = "allocd_journal_write_duration_seconds";
    page.family(
        name,
        Kind::Histogram,
        "How long it took to write to the journal and to have the device keep it.",
    )?;
    page.histogram(name, &notes.writes)
}

fn write_configuration(page: &mut Exposition, state: &ServiceState) -> Result<(), AllocError> {
    write_gauge(
        page,
        "allocd_config_last_reload_successful",
        "Whether the configuration that was read last is followed.",
        u128::from(state.is_reloaded()),
    )?;
    write_gauge(
        page,
        "allocd_config_last_reload_success_timestamp_seconds",
        "When the configuration was read that is followed, in seconds since 1970, or 0.",
        u128::from(state.followed_since()),
    )
}

fn write_state(page: &mut Exposition, state: &ServiceState) -> Result<(), AllocError> {
    write_process(page, state)?;
    write_configuration(page, state)?;
    let name = "allocd_reallocations_total";
    let count = u128::from(state.reallocations());
    write_counter(page, name, "Searches for an allocation.", count)?;
    write_gauge(
        page,
        "allocd_journal_broken",
        "Whether what is submitted cannot be kept any more.",
        u128::from(state.is_broken()),
    )?;
    let name = "allocd_journal_written_bytes_total";
    let count = u128::from(state.written());
    write_counter(page, name, "Bytes that were written to journals.", count)?;
    write_gauge(
        page,
        "allocd_http_connections",
        "Connections that are served, idle ones too.",
        u128::from(state.connections()),
    )?;
    write_gauge(
        page,
        "allocd_http_connections_max",
        "Connections that are served at once at most.",
        u128::from(state.most_connections()),
    )?;
    let name = "allocd_http_accept_failures_total";
    let count = u128::from(state.failed_accepts());
    write_counter(page, name, "Connections that could not be taken.", count)?;
    write_turned_away(page, state)?;
    let name = "allocd_log_lines_lost_total";
    let count = u128::from(state.lost_lines());
    write_counter(page, name, "Log lines that nobody read in time.", count)
}

fn write_turned_away(page: &mut Exposition, state: &ServiceState) -> Result<(), AllocError> {
    write_counter(
        page,
        "allocd_http_connections_turned_away_total",
        "Connections that were answered 503, since there was no place for them.",
        u128::from(state.turned_away()),
    )
}

/// What the last published allocation came to, and how long reallocations took.
fn write_last_allocation(page: &mut Exposition, notes: &Notes) -> Result<(), AllocError> {
    let (moved, left) = match notes.allocations.first() {
        Some(last) => (last.moved, last.left),
        None => (0, 0),
    };
    write_gauge(
        page,
        "allocd_allocation_moved",
        "Targets that the last published allocation took from the collector that held them.",
        u128::from(moved),
    )?;
    write_gauge(
        page,
        "allocd_allocation_left",
        "Targets that the last published allocation left with draining collectors.",
        u128::from(left),
    )?;
    let name = "allocd_reallocation_duration_seconds";
    page.family(
        name,
        Kind::Histogram,
        "How long searches for an allocation took.",
    )?;
    page.histogram(name, &notes.searches)
}

fn write_events(page: &mut Exposition, counts: &Counts) -> Result<(), AllocError> {
    let name = "allocd_events_total";
    page.family(
        name,
        Kind::Counter,
        "Events that were entered, by what they were answered.",
    )?;
    for kind in KINDS {
        write_done(page, name, kind.name(), counts.of_kind(kind))?;
        write_refused(page, name, kind.name(), counts.of_kind(kind))?;
    }
    let name = "allocd_events_refused_total";
    page.family(name, Kind::Counter, "Events that were entered and refused.")?;
    for kind in KINDS {
        let count = u128::from(counts.of_kind(kind).all_refused());
        page.labelled_sample(name, "event", kind.name(), count)?;
    }
    Ok(())
}

/// The answers to events of a kind that were done, but for those that none was given.
fn write_done(
    page: &mut Exposition,
    name: &str,
    kind: &str,
    of_kind: &EventCounts,
) -> Result<(), AllocError> {
    for done in DONE {
        write_answer(page, name, kind, done.name(), of_kind.of_done(done))?;
    }
    Ok(())
}

/// The refusals of events of a kind, but for those that none was given.
fn write_refused(
    page: &mut Exposition,
    name: &str,
    kind: &str,
    of_kind: &EventCounts,
) -> Result<(), AllocError> {
    for refusal in REFUSALS {
        write_answer(
            page,
            name,
            kind,
            refusal.name(),
            of_kind.of_refusal(refusal),
        )?;
    }
    Ok(())
}

fn write_answer(
    page: &mut Exposition,
    name: &str,
    kind: &str,
    answer: &str,
    count: u64,
) -> Result<(), AllocError> {
    if count == 0 {
        return Ok(());
    }
    let count = u128::from(count);
    page.twice_labelled_sample(name, "event", kind, "answer", answer, count)
}

fn write_requests(page: &mut Exposition, alloc: Global, counts: &Counts) -> Result<(), AllocError> {
    let name = "allocd_http_requests_total";
    page.family(
        name,
        Kind::Counter,
        "Requests that were answered, by route and status code, where 0 is any other code.",
    )?;
    for route in ROUTES {
        write_statuses(page, alloc, name, route.name(), counts.of_route(route))?;
    }
    let name = "allocd_http_request_duration_seconds";
    page.family(
        name,
        Kind::Histogram,
        "How long it took to answer requests, by route.",
    )?;
    for route in ROUTES {
        let durations = counts.of_route(route).durations();
        page.labelled_histogram(name, "route", route.name(), durations)?;
    }
    Ok(())
}

/// The status codes of a route's answers: 200 and 503 from the start, and the others once an answer had them.
fn write_statuses(
    page: &mut Exposition,
    alloc: Global,
    name: &str,
    route: &str,
    of_route: &RequestCounts,
) -> Result<(), AllocError> {
    for (status, count) in STATUSES.iter().zip(of_route.statuses().iter()) {
        if *count > 0 || *status == 200 || *status == 503 {
            let status = format!(in alloc; "{status}")?;
            let count = u128::from(*count);
            page.twice_labelled_sample(name, "route", route, "status", status.as_str(), count)?;
        }
    }
    Ok(())
}

fn write_sources(
    page: &mut Exposition,
    alloc: Global,
    sources: &[SourceNote],
) -> Result<(), AllocError> {
    let name = "allocd_refreshes_total";
    page.family(name, Kind::Counter, "Refreshes of discovery sources.")?;
    for source in sources {
        let said = name_of(alloc, source)?;
        page.labelled_sample(name, "source", said.as_str(), u128::from(source.refreshes))?;
    }
    let name = "allocd_refresh_failures_total";
    page.family(
        name,
        Kind::Counter,
        "Refreshes of discovery sources that failed.",
    )?;
    for source in sources {
        let said = name_of(alloc, source)?;
        page.labelled_sample(name, "source", said.as_str(), u128::from(source.failures))?;
    }
    write_last_successes(page, alloc, sources)?;
    write_last_lists(page, alloc, sources)
}

fn write_last_successes(
    page: &mut Exposition,
    alloc: Global,
    sources: &[SourceNote],
) -> Result<(), AllocError> {
    let name = "allocd_refresh_last_success_timestamp_seconds";
    page.family(
        name,
        Kind::Gauge,
        "When the discovery source last gave its list, in seconds since 1970, or 0.",
    )?;
    for source in sources {
        write_count(page, alloc, name, source, source.succeeded)?;
    }
    Ok(())
}

/// What the last list of each source has, and what is left out of it.
fn write_last_lists(
    page: &mut Exposition,
    alloc: Global,
    sources: &[SourceNote],
) -> Result<(), AllocError> {
    let name = "allocd_source_targets";
    page.family(
        name,
        Kind::Gauge,
        "Targets that the last list of the discovery source has.",
    )?;
    for source in sources {
        write_count(page, alloc, name, source, counts_of(source).targets)?;
    }
    let name = "allocd_source_targets_dropped";
    page.family(
        name,
        Kind::Gauge,
        "Targets that a relabelling rule leaves out of the last list of the discovery source.",
    )?;
    for source in sources {
        write_count(page, alloc, name, source, counts_of(source).dropped)?;
    }
    let name = "allocd_source_targets_without_address";
    page.family(
        name,
        Kind::Gauge,
        "Targets that are left out of the last list of the discovery source, since they have no address.",
    )?;
    for source in sources {
        write_count(page, alloc, name, source, counts_of(source).without_address)?;
    }
    Ok(())
}

/// What the last list of a source has: nothing where it gave none.
fn counts_of(source: &SourceNote) -> ListCounts {
    source.counts.unwrap_or(ListCounts {
        targets: 0,
        dropped: 0,
        without_address: 0,
    })
}

/// A count of a source.
fn write_count(
    page: &mut Exposition,
    alloc: Global,
    name: &str,
    source: &SourceNote,
    count: u64,
) -> Result<(), AllocError> {
    let said = name_of(alloc, source)?;
    let job = source.job.as_str();
    page.twice_labelled_sample(name, "job", job, "source", said.as_str(), u128::from(count))
}

/// A source by its job and its number.
fn name_of(alloc: Global, source: &SourceNote) -> Result<String, AllocError> {
    let job = source.job.as_str();
    let number = source.number;
    format!(in alloc; "{job}/{number}")
}

fn write_gauge(
    page: &mut Exposition,
    name: &str,
    help: &str,
    value: u128,
) -> Result<(), AllocError> {
    page.family(name, Kind::Gauge, help)?;
    page.sample(name, value)
}

fn write_counter(
    page: &mut Exposition,
    name: &str,
    help: &str,
    value: u128,
) -> Result<(), AllocError> {
    page.family(name, Kind::Counter, help)?;
    page.sample(name, value)
}
