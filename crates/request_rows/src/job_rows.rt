//! The text of the page of a job at a moment.
use crate::numbers::{first_part, first_word, known, number};
use lists::{List, Text};
use sd_routes::{JobRow, SourceRow, job_row_page};
use std::alloc::{AllocError, Global};

/// The page of a job at a moment, as `JOB LIVE COVERED UNCOVERED UNREACHED HANDING COLLECTOR HELD`, and behind ` | ` each of its sources, as
/// `URL SUCCESS TARGETS DROPPED BARE FAULT`. What is `-` of a source is not known of it.
pub(crate) fn job_row(alloc: Global, text: &str) -> Result<String, AllocError> {
    let (job, sources) = first_part(text);
    let row = row_in(alloc, job, sources)?;
    let page = job_row_page(alloc, &row);
    drop(row);
    Ok(page?.into_string())
}

fn row_in(alloc: Global, text: &str, sources: &str) -> Result<JobRow, AllocError> {
    let (name, rest) = first_word(text);
    let (live, rest) = first_word(rest);
    let (covered, rest) = first_word(rest);
    let (uncovered, rest) = first_word(rest);
    let (unreached, rest) = first_word(rest);
    let (handing_over, rest) = first_word(rest);
    let name = Text::from_str(alloc, name)?;
    let held = held_in(alloc, rest)?;
    match sources_in(alloc, sources) {
        Ok(sources) => Ok(JobRow {
            name,
            live: number(live),
            covered: number(covered),
            uncovered: number(uncovered),
            unreached: number(unreached),
            handing_over: number(handing_over),
            held,
            sources,
        }),
        Err(error) => {
            drop((name, held));
            Err(error)
        }
    }
}

/// What one collector holds, if one is named.
fn held_in(alloc: Global, text: &str) -> Result<List<(Text, u32)>, AllocError> {
    let (name, count) = first_word(text);
    let mut held = List::new(alloc);
    if !name.is_empty() {
        held.push((Text::from_str(alloc, name)?, number(count)))?;
    }
    Ok(held)
}

fn sources_in(alloc: Global, text: &str) -> Result<List<SourceRow>, AllocError> {
    let mut sources = List::new(alloc);
    match push_sources(alloc, &mut sources, text) {
        Ok(()) => Ok(sources),
        Err(error) => {
            drop(sources);
            Err(error)
        }
    }
}

fn push_sources(
    alloc: Global,
    sources: &mut List<SourceRow>,
    text: &str,
) -> Result<(), AllocError> {
    for source in text.split(" | ") {
        if !source.is_empty() {
            sources.push(source_in(alloc, source)?)?;
        }
    }
    Ok(())
}

fn source_in(alloc: Global, text: &str) -> Result<SourceRow, AllocError> {
    let (url, rest) = first_word(text);
    let (success, rest) = first_word(rest);
    let (targets, rest) = first_word(rest);
    let (dropped, rest) = first_word(rest);
    let (bare, fault) = first_word(rest);
    let url = Text::from_str(alloc, url)?;
    let fault = fault_in(alloc, fault)?;
    Ok(SourceRow {
        url,
        last_success: known(success),
        fault,
        targets: known(targets),
        dropped: known(dropped),
        without_address: known(bare),
    })
}

fn fault_in(alloc: Global, text: &str) -> Result<Option<Text>, AllocError> {
    if text == "-" {
        return Ok(None);
    }
    Ok(Some(Text::from_str(alloc, text)?))
}
