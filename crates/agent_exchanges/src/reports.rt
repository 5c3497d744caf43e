//! The body of a list of reports.
ghost use Rattle.std.specs.Prelude.{◌≡◌, IfOk};
ghost use Rattle.serde_json.specs.View.{view, items_view};
ghost use Rattle.serde_json.specs.Written.{compact_text};
ghost use Rattle.json_values.specs.Spelling.{items_data};
ghost use Rattle.scrape_books.specs.declared.report.Outcome.TheVariants.{Up, Down};
ghost use Rattle.agent_exchanges.specs.Reports.{entry_data, outcome_data, reports_data};

use agent_core::{Head, Report};
use json_values::text_of;
use lists::Text;
use scrape_books::Outcome;
use serde_json::{Value, json};
use std::alloc::{AllocError, Global};

/// The most reports of a list.
pub const MOST_REPORTS: usize = 4_096;

/// The body of a list of reports, which are all of this head.
pub fn reports_text(alloc: Global, head: Head, reports: &[Report]) -> Result<Text, AllocError>
    ensures { IfOk result (λ t. t ≡ compact_text (reports_data head reports.now)) }
{
    let value = reports_value(alloc, head, reports)?;
    text_of(alloc, &value)
}

fn reports_value(alloc: Global, head: Head, reports: &[Report]) -> Result<Value, AllocError>
    ensures { IfOk result (λ v. view v ≡ reports_data head reports.now) }
{
    let entries = Value::Array(entry_values(alloc, reports)?);
    json!(in alloc; {
        "collector": head.collector,
        "epoch": head.epoch,
        "number": head.number,
        "reports": entries,
        "round": head.round
    })
}

fn entry_values(alloc: Global, reports: &[Report]) -> Result<Vec<Value>, AllocError>
    ensures { IfOk result (λ vs. items_view vs.items ≡ items_data entry_data reports.now) }
{
    let mut values = Vec::with_capacity(alloc, reports.len())?;
    for report in reports {
        let value = entry_value(alloc, report)?;
        values.push(value)?;
    }
    Ok(values)
}

fn entry_value(alloc: Global, report: &Report) -> Result<Value, AllocError>
    ensures { IfOk result (λ v. view v ≡ entry_data report.now) }
{
    match report.outcome {
        Outcome::Up(samples) => up_value(alloc, report.target, samples),
        Outcome::Down => down_value(alloc, report.target),
    }
}

fn up_value(alloc: Global, target: u32, samples: u32) -> Result<Value, AllocError>
    ensures { IfOk result (λ v. view v ≡ outcome_data target (Up samples)) }
{
    json!(in alloc; {"samples": samples, "target": target, "up": true})
}

fn down_value(alloc: Global, target: u32) -> Result<Value, AllocError>
    ensures { IfOk result (λ v. view v ≡ outcome_data target Down) }
{
    json!(in alloc; {"target": target, "up": false})
}
