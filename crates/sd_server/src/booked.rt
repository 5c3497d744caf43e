//! What is told of a round that was booked.
ghost use Rattle.std.specs.Prelude.{IfOk, Some};
ghost use Rattle.page_rows.specs.Booked.{IsBooks};
ghost use Rattle.sd_server.specs.Says.{SaysBooks};
ghost use Rattle.sd_server.specs.Spans.{Moves, now_of};

use crate::handler::Handler;
use crate::seen::Seen;
use alloc_desk::Record;
use fleet_events::Round;
use kept_journal::JournalName;
use lists::Text;
use page_rows::books_asked;
use sd_routes::{BookCounts, BooksRow, JobBooks, RequestError, Said, books_page};
use service_pages::{BookLine, Reporter, ShownBooks, books_document};
use std::alloc::{AllocError, Global};
use std::sync::Wait;
use std::sync::ledger::Ledger;
use std::time::Clock;

impl<R: Wait + Clock + Copy, L: Ledger, B: Ledger, N: JournalName> Handler<R, L, B, N> {
    /// What was booked in the round that is asked for, or in the last one that is over.
    pub(crate) fn books(&self, seen: &mut Seen<N>, asked: Option<Round>) -> Said
        ensures says { SaysBooks seen.new asked result }
        ensures moves { Moves seen.old seen.new }
    {
        match self.books_asked(seen, asked) {
            Ok(Some(row)) => {
                let said = self.books_told(seen, asked, &row);
                drop(row);
                said
            }
            Ok(None) => Said::Refused(RequestError::UnknownRound),
            Err(_) => Said::Refused(RequestError::Memory),
        }
    }

    fn books_told(&self, seen: &Seen<N>, asked: Option<Round>, row: &BooksRow) -> Said
        requires { IsBooks (now_of seen.now).state asked (Some row.now) }
        ensures { SaysBooks seen.now asked result }
    {
        seen.now();
        match books_page(self.alloc, row) {
            Ok(text) => Said::Page(text),
            Err(_) => Said::Refused(RequestError::Memory),
        }
    }

    fn books_asked(
        &self,
        seen: &mut Seen<N>,
        asked: Option<Round>,
    ) -> Result<Option<BooksRow>, AllocError>
        ensures read { IfOk result (IsBooks (now_of seen.new).state asked) }
        ensures moves { Moves seen.old seen.new }
    {
        let mut pass = self.pass.lock(&self.rt);
        seen.latest.read(
            &self.rt,
            &self.desk,
            &mut *pass,
            |record| books_of(self.alloc, record, asked),
        )
    }

    /// The page of it for people.
    pub(crate) fn books_document(&self, seen: &mut Seen<N>, asked: Option<Round>) -> Said
        ensures says { SaysBooks seen.new asked result }
        ensures moves { Moves seen.old seen.new }
    {
        match self.books_asked(seen, asked) {
            Ok(Some(row)) => {
                let text = self.books_document_text(&row);
                drop(row);
                match text {
                    Ok(text) => Said::Document(text),
                    Err(_) => Said::Refused(RequestError::Memory),
                }
            }
            Ok(None) => Said::Refused(RequestError::UnknownRound),
            Err(_) => Said::Refused(RequestError::Memory),
        }
    }

    fn books_document_text(&self, row: &BooksRow) -> Result<Text, AllocError> {
        let lines = lines_of(self.alloc, row.jobs.as_slice())?;
        let shown = ShownBooks {
            round: row.round,
            open: row.open_round,
            lines: lines.as_slice(),
        };
        books_document(self.alloc, &shown)
    }
}

/// What was booked, as a desk has it now.
fn books_of(
    alloc: Global,
    record: &Record,
    asked: Option<Round>,
) -> Result<Option<BooksRow>, AllocError>
    ensures { IfOk result (IsBooks record.now.state asked) }
{
    books_asked(alloc, record.core(), asked)
}

/// A line for each job, with one for each of its collectors behind it.
fn lines_of(alloc: Global, jobs: &[JobBooks]) -> Result<Vec<BookLine<'_>>, AllocError> {
    let mut lines = Vec::new(alloc);
    for job in jobs {
        lines.push(line_of(job.job.as_str(), Reporter::All, job.counts))?;
        push_lines(job, &mut lines)?;
    }
    Ok(lines)
}

fn push_lines<'a>(job: &'a JobBooks, lines: &mut Vec<BookLine<'a>>) -> Result<(), AllocError> {
    for collector in job.collectors.as_slice() {
        let reporter = match &collector.name {
            Some(name) => Reporter::Live(collector.id, name.as_str()),
            None => Reporter::Left(collector.id),
        };
        lines.push(line_of(job.job.as_str(), reporter, collector.counts))?;
    }
    Ok(())
}

fn line_of<'a>(job: &'a str, reporter: Reporter<'a>, counts: BookCounts) -> BookLine<'a> {
    BookLine {
        job,
        reporter,
        up: counts.up,
        down: counts.down,
        missing: counts.missing,
        samples: counts.samples,
    }
}
