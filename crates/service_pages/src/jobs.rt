//! The jobs.
use crate::cells::{begin_bad_cell, begin_cell_of, end_cell, number_cell};
use crate::figures::JobFigures;
use crate::links::{begin_uncovered_link, job_link};
use hypertext::Hypertext;
use std::alloc::AllocError;

const HEAD: &str =
    "<table id=\"jobs\"><caption>Jobs</caption><thead><tr><th scope=\"col\">Job</th><th scope=\"col\">Live</th><th scope=\"col\">Covered</th><th scope=\"col\">Uncovered</th><th scope=\"col\">Handing over</th></tr></thead><tbody>\n";

pub(crate) fn write_jobs(page: &mut Hypertext, jobs: &[JobFigures]) -> Result<(), AllocError> {
    page.markup(HEAD)?;
    for job in jobs {
        write_job(page, job)?;
    }
    page.markup("</tbody></table>\n")
}

fn write_job(page: &mut Hypertext, job: &JobFigures) -> Result<(), AllocError> {
    page.markup("<tr><th scope=\"row\">")?;
    job_link(page, job.name.as_str())?;
    page.markup("</th>")?;
    number_cell(page, "Live", job.live)?;
    number_cell(page, "Covered", job.covered)?;
    write_uncovered(page, job)?;
    write_handing_over(page, job)?;
    page.markup("</tr>\n")
}

fn write_uncovered(page: &mut Hypertext, job: &JobFigures) -> Result<(), AllocError> {
    if job.uncovered() == 0 {
        return number_cell(page, "Uncovered", 0);
    }
    begin_bad_cell(page, "Uncovered")?;
    begin_uncovered_link(page, job.name.as_str())?;
    page.number(u128::from(job.uncovered()))?;
    page.markup("</a>")?;
    end_cell(page)
}

fn write_handing_over(page: &mut Hypertext, job: &JobFigures) -> Result<(), AllocError> {
    begin_cell_of(page, "Handing over", job.handing_over > 0)?;
    page.number(u128::from(job.handing_over))?;
    end_cell(page)
}
