//! The text of the page of what was booked in a round.
use crate::numbers::{first_part, first_word, known, large, number};
use lists::{List, Text};
use sd_routes::{BookCounts, BooksRow, CollectorBooks, JobBooks, books_page};
use std::alloc::{AllocError, Global};

/// The page of what was booked, as `OPEN ROUND`, with a job behind ` | `, as `JOB UP DOWN SAMPLES MISSING`, and behind it each of its collectors, as
/// `ID NAME UP DOWN SAMPLES MISSING`. What is `-` is not known, and the page has no job where none is named.
pub(crate) fn books(alloc: Global, text: &str) -> Result<String, AllocError> {
    let (head, job) = first_part(text);
    let row = row_in(alloc, head, job)?;
    let page = books_page(alloc, &row);
    drop(row);
    Ok(page?.into_string())
}

fn row_in(alloc: Global, head: &str, job: &str) -> Result<BooksRow, AllocError> {
    let (open, round) = first_word(head);
    Ok(BooksRow {
        open_round: number(open),
        round: round_in(round),
        jobs: jobs_in(alloc, job)?,
    })
}

fn round_in(text: &str) -> Option<u32> {
    if text == "-" {
        return None;
    }
    Some(number(text))
}

fn jobs_in(alloc: Global, job: &str) -> Result<List<JobBooks>, AllocError> {
    let mut jobs = List::new(alloc);
    match push_job(alloc, &mut jobs, job) {
        Ok(()) => Ok(jobs),
        Err(error) => {
            drop(jobs);
            Err(error)
        }
    }
}

fn push_job(alloc: Global, jobs: &mut List<JobBooks>, job: &str) -> Result<(), AllocError> {
    if job.is_empty() {
        return Ok(());
    }
    jobs.push(job_in(alloc, job)?)
}

fn job_in(alloc: Global, text: &str) -> Result<JobBooks, AllocError> {
    let (job, collectors) = first_part(text);
    let (name, counts) = first_word(job);
    let job = Text::from_str(alloc, name)?;
    let collectors = collectors_in(alloc, collectors)?;
    Ok(JobBooks {
        job,
        counts: counts_in(counts),
        collectors,
    })
}

fn collectors_in(alloc: Global, text: &str) -> Result<List<CollectorBooks>, AllocError> {
    let mut collectors = List::new(alloc);
    match push_collectors(alloc, &mut collectors, text) {
        Ok(()) => Ok(collectors),
        Err(error) => {
            drop(collectors);
            Err(error)
        }
    }
}

fn push_collectors(
    alloc: Global,
    collectors: &mut List<CollectorBooks>,
    text: &str,
) -> Result<(), AllocError> {
    for collector in text.split(" | ") {
        if !collector.is_empty() {
            collectors.push(collector_in(alloc, collector)?)?;
        }
    }
    Ok(())
}

fn collector_in(alloc: Global, text: &str) -> Result<CollectorBooks, AllocError> {
    let (id, rest) = first_word(text);
    let (name, counts) = first_word(rest);
    let name = name_in(alloc, name)?;
    Ok(CollectorBooks {
        id: number(id),
        name,
        counts: counts_in(counts),
    })
}

fn name_in(alloc: Global, text: &str) -> Result<Option<Text>, AllocError> {
    if text == "-" {
        return Ok(None);
    }
    Ok(Some(Text::from_str(alloc, text)?))
}

fn counts_in(text: &str) -> BookCounts {
    let (up, rest) = first_word(text);
    let (down, rest) = first_word(rest);
    let (samples, missing) = first_word(rest);
    BookCounts {
        up: large(up),
        down: large(down),
        samples: large(samples),
        missing: known(missing),
    }
}
