//! What the readers of documents make of a text.
use agent_core::{Listed, Said};
use agent_documents::{
    DocumentError, Part, all_targets, read_head, read_list, read_memory, read_said, read_until,
    write_memory,
};
use scrape_books::Outcome;
use std::alloc::{AllocError, Global};

/// Two answers of Prometheus, of `up` and of `scrape_samples_scraped`, with `|` between: the series with their scrapes.
pub(crate) fn said(alloc: Global, text: &str) -> Result<String, AllocError> {
    let (up, samples) = text.split_once('|').unwrap_or((text, ""));
    match read_said(alloc, up.as_bytes(), samples.as_bytes()) {
        Ok(said) => said_text(alloc, &said),
        Err(error) => fault(alloc, error),
    }
}

fn said_text(alloc: Global, said: &Said) -> Result<String, AllocError> {
    let mut line = String::new(alloc);
    for (series, points) in said.iter() {
        line.push_str(series.labels.as_str())?;
        for point in points.as_slice() {
            let time = point.time;
            let scrape = match point.outcome {
                Outcome::Up(samples) => format!(in alloc; " {time}:{samples}")?,
                Outcome::Down => format!(in alloc; " {time}:down")?,
            };
            line.push_str(scrape.as_str())?;
        }
        line.push(';')?;
    }
    Ok(line)
}

/// A list of the job at 3: its targets.
pub(crate) fn list(alloc: Global, text: &str) -> Result<String, AllocError> {
    match read_list(alloc, 3, text.as_bytes()) {
        Ok(targets) => targets_text(alloc, targets),
        Err(error) => fault(alloc, error),
    }
}

fn targets_text(alloc: Global, targets: Vec<Listed>) -> Result<String, AllocError> {
    let all = all_targets(alloc, targets)?;
    let mut line = String::new(alloc);
    for listed in all.as_slice() {
        add_target(alloc, &mut line, listed)?;
    }
    Ok(line)
}

fn add_target(alloc: Global, line: &mut String, listed: &Listed) -> Result<(), AllocError> {
    let (job, target, alone) = (listed.job, listed.target, listed.alone);
    let (group, series) = (listed.group.as_str(), listed.series.labels.as_str());
    let text = format!(in alloc; "{job} {target} {alone} {series} {group};")?;
    line.push_str(text.as_str())
}

/// The headers of a list in words: collector, epoch, number, round, age, length, where the list was asked for at 1000.
pub(crate) fn head(alloc: Global, text: &str) -> Result<String, AllocError> {
    let mut words = text.split(' ');
    let collector = words.next().unwrap_or("");
    let epoch = words.next().unwrap_or("");
    let number = words.next().unwrap_or("");
    let round = words.next().unwrap_or("");
    let age = words.next().unwrap_or("");
    let length = words.next().unwrap_or("");
    let until = read_until(1000, age, length).unwrap_or(0);
    match read_head(collector, epoch, number, round) {
        Some(head) => format!(in alloc;
            "{} {} {} {} until {until}",
            head.collector, head.epoch, head.number, head.round
        ),
        None => format!(in alloc; "none until {until}"),
    }
}

/// A state file: as it is written again.
pub(crate) fn memory(alloc: Global, text: &str) -> Result<String, AllocError> {
    match read_memory(alloc, text.as_bytes()) {
        Ok(memory) => Ok(write_memory(alloc, &memory)?.into_string()),
        Err(error) => fault(alloc, error),
    }
}

fn fault(alloc: Global, error: DocumentError) -> Result<String, AllocError> {
    match error {
        DocumentError::NotJson => String::from_str(alloc, "no JSON"),
        DocumentError::Shape(part) => String::from_str(alloc, part_name(part)),
        DocumentError::Memory => Err(AllocError),
    }
}

fn part_name(part: Part) -> &'static str {
    match part {
        Part::Answer => "another answer",
        Part::Metric => "another metric",
        Part::Values => "other values",
        Part::Group => "another group",
        Part::State => "another state",
    }
}
