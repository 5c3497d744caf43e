//! A source, as log lines name it.

/// A source of a job.
#[derive(Clone, Copy)]
pub(crate) struct ToldSource<'a> {
    pub(crate) job: &'a str,
    /// Its number in the job, from 1. The job's static groups have 0.
    pub(crate) number: u32,
    /// Its URL. Empty where it has none, as static groups.
    pub(crate) url: &'a str,
}

impl<'a> ToldSource<'a> {
    /// The static groups of a job.
    pub(crate) fn of_groups(job: &'a str) -> ToldSource<'a> {
        ToldSource {
            job,
            number: 0,
            url: "",
        }
    }
}
