//! What is posted of a report.
ghost use Rattle.std.specs.Prelude.{◌≡◌, IfOk};
ghost use Rattle.serde_json.specs.View.{view};
ghost use Rattle.serde_json.specs.Written.{compact_text};
ghost use Rattle.scrape_books.specs.declared.report.Outcome.TheVariants.{Up, Down};
ghost use Rattle.agent_documents.specs.Posts.{report_data};

use agent_core::{Head, Report};
use json_values::text_of;
use lists::Text;
use scrape_books::Outcome;
use serde_json::{Value, json};
use std::alloc::{AllocError, Global};

/// The body of a report, which names its epoch.
pub fn report_text(alloc: Global, report: &Report) -> Result<Text, AllocError>
    ensures { IfOk result (λ t. t ≡ compact_text (report_data report.now.head report.now.target report.now.outcome)) }
{
    let value = match report.outcome {
        Outcome::Up(samples) => up_value(alloc, report.head, report.target, samples)?,
        Outcome::Down => down_value(alloc, report.head, report.target)?,
    };
    text_of(alloc, &value)
}

fn up_value(alloc: Global, head: Head, target: u32, samples: u32) -> Result<Value, AllocError>
    ensures { IfOk result (λ v. view v ≡ report_data head target (Up samples)) }
{
    json!(in alloc; {
        "collector": head.collector,
        "epoch": head.epoch,
        "number": head.number,
        "round": head.round,
        "samples": samples,
        "target": target,
        "up": true
    })
}

fn down_value(alloc: Global, head: Head, target: u32) -> Result<Value, AllocError>
    ensures { IfOk result (λ v. view v ≡ report_data head target Down) }
{
    json!(in alloc; {
        "collector": head.collector,
        "epoch": head.epoch,
        "number": head.number,
        "round": head.round,
        "target": target,
        "up": false
    })
}
