//! What is told of one target.
ghost use Rattle.std.specs.Prelude.{◌≡◌, ◌++◌, IfOk, OnOk, string_bytes};
ghost use Rattle.serde_json.specs.Data.{string};
ghost use Rattle.serde_json.specs.Written.{compact_text};
ghost use Rattle.book_tables.specs.Rows.{job_name, place_text, row_text, sums_text};

use fleet::{JobSpec, KnownTarget};
use json_values::text_of;
use lists::Text;
use scrape_books::{Books, Page};
use serde_json::Value;
use std::alloc::{AllocError, Global};

/// Adds the row of a target: an object, and a line feed.
pub(crate) fn push_row(
    alloc: Global,
    text: &mut String,
    file: usize,
    books: &Books,
    jobs: &[JobSpec],
    number: u32,
    known: &KnownTarget,
) -> Result<(), AllocError>
    ensures { OnOk result (string_bytes text.new ≡ string_bytes text.old ++ row_text file books.now jobs.now number known.now) }
{
    push_place(alloc, text, file, known.target.text())?;
    push_job(alloc, text, job_name(jobs, known.job))?;
    push_sums(alloc, text, number, books.page(number))
}

/// In which file it stands, and its group.
fn push_place(alloc: Global, text: &mut String, file: usize, group: &str) -> Result<(), AllocError>
    ensures { OnOk result (string_bytes text.new ≡ string_bytes text.old ++ place_text file group.now) }
{
    let place = format!(in alloc; "{{\"file\":{file},\"group\":{group},\"job\":")?;
    text.push_str(place.as_str())
}

fn push_job(alloc: Global, text: &mut String, job: &str) -> Result<(), AllocError>
    ensures { OnOk result (string_bytes text.new ≡ string_bytes text.old ++ compact_text (string job.now)) }
{
    let job = json_of(alloc, job)?;
    text.push_str(job.as_str())
}

fn json_of(alloc: Global, text: &str) -> Result<Text, AllocError>
    ensures { IfOk result (λ t. t ≡ compact_text (string text.now)) }
{
    let value = Value::try_from_str(alloc, text)?;
    text_of(alloc, &value)
}

/// What is booked of it.
fn push_sums(alloc: Global, text: &mut String, number: u32, page: Page) -> Result<(), AllocError>
    ensures { OnOk result (string_bytes text.new ≡ string_bytes text.old ++ sums_text number page) }
{
    let (reports, samples, ups) = (page.reports, page.samples, page.ups);
    let sums = format!(in alloc;
        ",\"reports\":{reports},\"samples\":{samples},\"target\":{number},\"ups\":{ups}}}\n"
    )?;
    text.push_str(sums.as_str())
}

/// The name of the job of an index.
fn job_name(jobs: &[JobSpec], job: usize) -> &str
    ensures { result.now ≡ job_name jobs.now job }
{
    match jobs.get(job) {
        Some(spec) => spec.name.as_str(),
        None => "",
    }
}
