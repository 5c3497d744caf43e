//! Where the targets of a list are scraped, and what Prometheus says of the last scrapes of those that share a series.
use agent_core::{LastScrape, Lasts, Listed, Url};
use agent_documents::{DocumentError, Durations, all_targets, read_durations, read_list};
use agent_exchanges::{Known, read_lasts};
use lists::Text;
use std::alloc::{AllocError, Global};

/// A list of the job at 0: the URLs of its targets, and how they have their series.
pub(crate) fn urls(alloc: Global, text: &str) -> Result<String, AllocError> {
    match read_list(alloc, 0, text.as_bytes()) {
        Ok(targets) => urls_text(alloc, targets),
        Err(error) => fault(alloc, error),
    }
}

fn urls_text(alloc: Global, targets: Vec<Listed>) -> Result<String, AllocError> {
    let all = all_targets(alloc, targets)?;
    let mut line = String::new(alloc);
    for listed in all.as_slice() {
        add_url(&mut line, &listed.url)?;
        line.push_str(sharing(listed))?;
    }
    Ok(line)
}

fn sharing(listed: &Listed) -> &'static str {
    if listed.alone {
        return " alone;";
    }
    if listed.shared {
        " shared;"
    } else {
        " untold;"
    }
}

fn add_url(line: &mut String, url: &Url) -> Result<(), AllocError> {
    line.push_str(url.base.as_str())?;
    for parameter in url.parameters.as_slice() {
        line.push(' ')?;
        line.push_str(parameter.name.as_str())?;
        line.push('=')?;
        line.push_str(parameter.value.as_str())?;
    }
    Ok(())
}

/// A list of the job `n`, and what Prometheus says of durations and of what it scrapes, with `|` between: the last scrapes of each shared series.
pub(crate) fn lasts(alloc: Global, text: &str) -> Result<String, AllocError> {
    let mut parts = text.splitn(3, '|');
    let list = parts.next().unwrap_or("");
    let durations = parts.next().unwrap_or("");
    let answer = parts.next().unwrap_or("");
    match read_durations(alloc, durations.as_bytes()) {
        Ok(durations) => match lasts_in(alloc, list, &durations, answer) {
            Ok(lasts) => lasts_text(alloc, &lasts),
            Err(error) => fault(alloc, error),
        },
        Err(error) => fault(alloc, error),
    }
}

fn lasts_in(
    alloc: Global,
    list: &str,
    durations: &Durations,
    answer: &str,
) -> Result<Lasts, DocumentError> {
    let targets = read_list(alloc, 0, list.as_bytes())?;
    let all = all_targets(alloc, targets)?;
    let jobs = [Text::from_str(alloc, "n")?];
    let known = Known {
        jobs: jobs.as_slice(),
        durations,
    };
    read_lasts(alloc, known, all.as_slice(), answer.as_bytes())
}

fn lasts_text(alloc: Global, lasts: &Lasts) -> Result<String, AllocError> {
    let mut line = String::new(alloc);
    for (series, all) in lasts.iter() {
        line.push_str(series.labels.as_str())?;
        add_lasts(alloc, &mut line, all.as_slice())?;
        line.push(';')?;
    }
    Ok(line)
}

fn add_lasts(alloc: Global, line: &mut String, lasts: &[LastScrape]) -> Result<(), AllocError> {
    for last in lasts {
        line.push_str(if last.job.is_some() {
            " ours "
        } else {
            " nobody "
        })?;
        add_url(line, &last.url)?;
        let time = last.time;
        let began = format!(in alloc; " {time}")?;
        line.push_str(began.as_str())?;
    }
    Ok(())
}

fn fault(alloc: Global, error: DocumentError) -> Result<String, AllocError> {
    match error {
        DocumentError::Memory => Err(AllocError),
        DocumentError::NotJson | DocumentError::Shape(_) => String::from_str(alloc, "refused"),
    }
}
