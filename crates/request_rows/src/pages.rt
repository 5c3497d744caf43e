//! The texts of pages.
use crate::numbers::first_part;
use fleet_events::{Event, read_event};
use label_sets::Target;
use lists::List;
use reach_rules::CollectorName;
use sd_documents::read_config;
use sd_routes::{job_page, jobs_page, targets_page};
use std::alloc::{AllocError, Global};
use target_shares::{NumberedTarget, Share};

/// The number of the first target.
const FIRST: u32 = 7;

/// The page of the jobs of a configuration.
pub(crate) fn jobs(alloc: Global, text: &str) -> Result<String, AllocError> {
    match read_config(alloc, text.as_bytes()) {
        Ok(config) => {
            let page = jobs_page(alloc, config.jobs.as_slice());
            drop(config);
            Ok(page?.into_string())
        }
        Err(error) => format!(in alloc; "{error}"),
    }
}

/// The page of targets, numbered from 7 on: a list as in a discover line.
pub(crate) fn targets(alloc: Global, text: &str) -> Result<String, AllocError> {
    match numbered(alloc, text)? {
        Some(targets) => {
            let page = targets_page(alloc, targets.as_slice());
            drop(targets);
            Ok(page?.into_string())
        }
        None => String::from_str(alloc, "no targets"),
    }
}

pub(crate) fn numbered(
    alloc: Global,
    groups: &str,
) -> Result<Option<List<NumberedTarget>>, AllocError> {
    let line = format!(in alloc;
        "{{\"event\":\"discover\",\"job\":\"j\",\"source\":0,\"targets\":{groups}}}"
    )?;
    match read_event(alloc, line.as_bytes())? {
        Some(
            Event::Discover {
                job,
                source: _,
                targets,
            },
        ) => {
            drop(job);
            Ok(Some(with_numbers(alloc, targets)?))
        }
        other => {
            drop(other);
            Ok(None)
        }
    }
}

fn with_numbers(alloc: Global, targets: List<Target>) -> Result<List<NumberedTarget>, AllocError> {
    let mut all = List::new(alloc);
    let mut number = FIRST;
    for target in targets.into_vec() {
        all.push(NumberedTarget { number, target })?;
        number = number.wrapping_add(1);
    }
    Ok(all)
}

/// The page of a job with what each collector holds, as `JOB | COLLECTOR GROUPS`.
pub(crate) fn job(alloc: Global, text: &str) -> Result<String, AllocError> {
    let (job, shares) = first_part(text);
    match shares_of(alloc, shares) {
        Ok(shares) => {
            let page = job_page(alloc, job, shares.as_slice());
            drop(shares);
            Ok(page?.into_string())
        }
        Err(error) => Err(error),
    }
}

fn shares_of(alloc: Global, text: &str) -> Result<List<Share>, AllocError> {
    let mut shares = List::new(alloc);
    match push_shares(alloc, &mut shares, text) {
        Ok(()) => Ok(shares),
        Err(error) => {
            drop(shares);
            Err(error)
        }
    }
}

fn push_shares(alloc: Global, shares: &mut List<Share>, text: &str) -> Result<(), AllocError> {
    for part in text.split(" | ") {
        push_share(alloc, shares, part)?;
    }
    Ok(())
}

fn push_share(alloc: Global, shares: &mut List<Share>, text: &str) -> Result<(), AllocError> {
    match share(alloc, text)? {
        Some(share) => shares.push(share),
        None => Ok(()),
    }
}

fn share(alloc: Global, text: &str) -> Result<Option<Share>, AllocError> {
    match text.rsplit_once(' ') {
        Some((name, groups)) => match CollectorName::read(alloc, name) {
            Ok(collector) => with_targets(collector, numbered(alloc, groups)),
            Err(_) => Ok(None),
        },
        None => Ok(None),
    }
}

fn with_targets(
    collector: CollectorName,
    targets: Result<Option<List<NumberedTarget>>, AllocError>,
) -> Result<Option<Share>, AllocError> {
    match targets {
        Ok(Some(targets)) => Ok(Some(Share { collector, targets })),
        Ok(None) => {
            drop(collector);
            Ok(None)
        }
        Err(error) => {
            drop(collector);
            Err(error)
        }
    }
}
