//! Static targets that a configuration leaves out.
use logfmt::Quoted;
use relabel::Found;
use sd_documents::Job;
use service_tasks::found_in_static_groups;
use std::alloc::{AllocError, Global};

/// Tells of each job how many of its static targets rules leave out, and how many have no address: a line where it is not 0.
pub(crate) fn tell_left_out(
    alloc: Global,
    lines: &mut String,
    path: &str,
    jobs: &[Job],
) -> Result<(), AllocError> {
    for (place, job) in jobs.iter().enumerate() {
        let found = found_in_static_groups(alloc, job)?;
        let told = tell_of_job(alloc, lines, path, place, job, &found);
        drop(found);
        told?;
    }
    Ok(())
}

fn tell_of_job(
    alloc: Global,
    lines: &mut String,
    path: &str,
    place: usize,
    job: &Job,
    found: &Found,
) -> Result<(), AllocError> {
    let name = Quoted(job.name.as_str());
    let way = format!(in alloc; "{path}: scrape_configs[{place}], job {name}")?;
    tell_counts(alloc, lines, way.as_str(), found)
}

fn tell_counts(
    alloc: Global,
    lines: &mut String,
    way: &str,
    found: &Found,
) -> Result<(), AllocError> {
    let dropped = found.dropped;
    let without = found.no_address;
    let all = found.targets.len().saturating_add(dropped);
    let all = all.saturating_add(without);
    if dropped > 0 {
        let line = format!(in alloc;
            "{way}: of its {all} static targets rules leave out {dropped}\n"
        )?;
        lines.push_str(line.as_str())?;
    }
    if without > 0 {
        let line = format!(in alloc;
            "{way}: of its {all} static targets {without} have no address\n"
        )?;
        lines.push_str(line.as_str())?;
    }
    Ok(())
}
