//! What another configuration changes, in words.
use crate::service::JobText;
use lists::{List, Plain, Text};
use service_settings::Collector;
use std::alloc::{AllocError, Global};

/// How many names are told one by one of those that are alike.
const MOST_NAMES: usize = 16;

/// What is told where jobs and collectors are the same.
const NOTHING: &str = "nothing of jobs and collectors";

/// The names of what is alike in a list and the list before it.
#[derive(Drop)]
struct Differences {
    removed: List<Text>,
    added: List<Text>,
    /// Of jobs, those of another text. Of collectors, those of other limits.
    changed: List<Text>,
    /// Of collectors, those of another reach.
    moved: List<Text>,
}

/// What the jobs and the collectors of a configuration are beside those of the one before: a line without its line feed, as
/// `jobs 8 -> 7, removed redis, added api, changed node; collectors +1 -1, removed d, added c, limits of a, reach of b`.
pub(crate) fn line_of_differences(
    alloc: Global,
    jobs: (&[JobText], &[JobText]),
    collectors: (&[Collector], &[Collector]),
) -> Result<Text, AllocError> {
    let of_jobs = job_differences(alloc, jobs.0, jobs.1)?;
    match collector_differences(alloc, collectors.0, collectors.1) {
        Ok(of_collectors) => {
            let counts = (jobs.0.len(), jobs.1.len());
            let line = line_of(alloc, counts, &of_jobs, &of_collectors);
            drop((of_jobs, of_collectors));
            line
        }
        Err(error) => {
            drop(of_jobs);
            Err(error)
        }
    }
}

/// The line of these differences, with how many jobs there were and are.
fn line_of(
    alloc: Global,
    counts: (usize, usize),
    of_jobs: &Differences,
    of_collectors: &Differences,
) -> Result<Text, AllocError> {
    if of_jobs.is_empty() && of_collectors.is_empty() {
        return Text::from_str(alloc, NOTHING);
    }
    let (before, after) = counts;
    let mut line = format!(in alloc; "jobs {before} -> {after}")?;
    push_jobs(&mut line, alloc, of_jobs)?;
    push_collectors(&mut line, alloc, of_collectors)?;
    Ok(Text::from_string(line))
}

fn push_jobs(line: &mut String, alloc: Global, found: &Differences) -> Result<(), AllocError> {
    push_names(line, alloc, ", removed", found.removed.as_slice())?;
    push_names(line, alloc, ", added", found.added.as_slice())?;
    push_names(line, alloc, ", changed", found.changed.as_slice())
}

fn push_collectors(
    line: &mut String,
    alloc: Global,
    found: &Differences,
) -> Result<(), AllocError> {
    push_counts(line, alloc, found.added.len(), found.removed.len())?;
    push_names(line, alloc, ", removed", found.removed.as_slice())?;
    push_names(line, alloc, ", added", found.added.as_slice())?;
    push_names(line, alloc, ", limits of", found.changed.as_slice())?;
    push_names(line, alloc, ", reach of", found.moved.as_slice())
}

/// Writes how many collectors are more and how many fewer.
fn push_counts(
    line: &mut String,
    alloc: Global,
    added: usize,
    removed: usize,
) -> Result<(), AllocError> {
    let counts = format!(in alloc; "; collectors +{added} -{removed}")?;
    line.push_str(counts.as_str())?;
    Ok(())
}

impl Differences {
    fn none(alloc: Global) -> Differences {
        Differences {
            removed: List::new(alloc),
            added: List::new(alloc),
            changed: List::new(alloc),
            moved: List::new(alloc),
        }
    }

    fn is_empty(&self) -> bool {
        self.removed.is_empty()
            && self.added.is_empty()
            && self.changed.is_empty()
            && self.moved.is_empty()
    }
}

fn job_differences(
    alloc: Global,
    before: &[JobText],
    after: &[JobText],
) -> Result<Differences, AllocError> {
    let mut found = Differences::none(alloc);
    match add_jobs(&mut found, before, after) {
        Ok(()) => Ok(found),
        Err(error) => {
            drop(found);
            Err(error)
        }
    }
}

fn add_jobs(
    found: &mut Differences,
    before: &[JobText],
    after: &[JobText],
) -> Result<(), AllocError> {
    for job in before {
        if job_named(after, job.name.as_str()).is_none() {
            add_copy(&mut found.removed, &job.name)?;
        }
    }
    for job in after {
        match job_named(before, job.name.as_str()) {
            Some(former) if former.text.same(&job.text) => {}
            Some(_) => add_copy(&mut found.changed, &job.name)?,
            None => add_copy(&mut found.added, &job.name)?,
        }
    }
    Ok(())
}

fn add_copy(names: &mut List<Text>, name: &Text) -> Result<(), AllocError> {
    names.push(name.copy()?)
}

fn job_named<'a>(jobs: &'a [JobText], name: &str) -> Option<&'a JobText> {
    for job in jobs {
        if job.name.as_str() == name {
            return Some(job);
        }
    }
    None
}

fn collector_differences(
    alloc: Global,
    before: &[Collector],
    after: &[Collector],
) -> Result<Differences, AllocError> {
    let mut found = Differences::none(alloc);
    match add_collectors(alloc, &mut found, before, after) {
        Ok(()) => Ok(found),
        Err(error) => {
            drop(found);
            Err(error)
        }
    }
}

fn add_collectors(
    alloc: Global,
    found: &mut Differences,
    before: &[Collector],
    after: &[Collector],
) -> Result<(), AllocError> {
    for collector in before {
        if collector_named(after, collector.name.as_str()).is_none() {
            add_name(alloc, &mut found.removed, collector)?;
        }
    }
    for collector in after {
        let former = collector_named(before, collector.name.as_str());
        add_collector(alloc, found, former, collector)?;
    }
    Ok(())
}

fn add_collector(
    alloc: Global,
    found: &mut Differences,
    former: Option<&Collector>,
    collector: &Collector,
) -> Result<(), AllocError> {
    let Some(former) = former else {
        return add_name(alloc, &mut found.added, collector);
    };
    if !former.limits.same(&collector.limits) {
        add_name(alloc, &mut found.changed, collector)?;
    }
    if !former.reach.same(&collector.reach) {
        add_name(alloc, &mut found.moved, collector)?;
    }
    Ok(())
}

fn add_name(
    alloc: Global,
    names: &mut List<Text>,
    collector: &Collector,
) -> Result<(), AllocError> {
    names.push(Text::from_str(alloc, collector.name.as_str())?)
}

/// The collector of a name.
pub(crate) fn collector_named<'a>(
    collectors: &'a [Collector],
    name: &str,
) -> Option<&'a Collector> {
    for collector in collectors {
        if collector.name.as_str() == name {
            return Some(collector);
        }
    }
    None
}

/// Writes the first names behind words, and how many more there are, where there are any.
fn push_names(
    line: &mut String,
    alloc: Global,
    words: &str,
    names: &[Text],
) -> Result<(), AllocError> {
    if names.is_empty() {
        return Ok(());
    }
    line.push_str(words)?;
    for name in names.iter().take(MOST_NAMES) {
        line.push_str(" ")?;
        line.push_str(name.as_str())?;
    }
    if names.len() > MOST_NAMES {
        let others = names.len().saturating_sub(MOST_NAMES);
        let others = format!(in alloc; " and {others} more")?;
        line.push_str(others.as_str())?;
    }
    Ok(())
}
