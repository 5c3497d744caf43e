//! What is told of the sources of a job.
use lists::{List, Plain, Text};
use sd_routes::SourceRow;
use service_pages::SourceNote;
use std::alloc::{AllocError, Global};

/// What is told of the sources of a job, of which the URLs stand by their numbers.
pub fn source_rows(
    alloc: Global,
    job: &str,
    urls: &[Text],
    notes: &[SourceNote],
) -> Result<List<SourceRow>, AllocError> {
    let mut rows = List::new(alloc);
    for note in notes {
        if note.job.as_str() == job {
            if let Some(url) = urls.get((note.number as usize).saturating_sub(1)) {
                rows.push(source_row(url, note)?)?;
            }
        }
    }
    Ok(rows)
}

fn source_row(url: &Text, note: &SourceNote) -> Result<SourceRow, AllocError> {
    let url = url.copy()?;
    let fault = fault_of(note)?;
    let last_success = match note.succeeded {
        0 => None,
        seconds => Some(seconds),
    };
    let (targets, dropped, without_address) = match note.counts {
        Some(counts) => (
            Some(counts.targets),
            Some(counts.dropped),
            Some(counts.without_address),
        ),
        None => (None, None, None),
    };
    Ok(SourceRow {
        url,
        last_success,
        fault,
        targets,
        dropped,
        without_address,
    })
}

fn fault_of(note: &SourceNote) -> Result<Option<Text>, AllocError> {
    if note.fault.as_str().is_empty() {
        return Ok(None);
    }
    Ok(Some(note.fault.copy()?))
}
