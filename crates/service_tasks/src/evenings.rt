//! How the jobs of the settings are evened out.
use alloc_desk::JobEvening;
use service_settings::JobSpread;
use std::alloc::{AllocError, Global};

/// How each job is evened out, by its place.
pub(crate) fn evenings_of(
    alloc: Global,
    spreads: &[JobSpread],
) -> Result<Vec<JobEvening>, AllocError> {
    let mut evenings = Vec::with_capacity(alloc, spreads.len())?;
    for spread in spreads {
        evenings.push(evening_of(*spread))?;
    }
    Ok(evenings)
}

fn evening_of(spread: JobSpread) -> JobEvening {
    match spread {
        JobSpread::Together => JobEvening::Together,
        JobSpread::Alone(slack) => JobEvening::Alone(slack),
        JobSpread::Off => JobEvening::Off,
    }
}
