//! The first line of the journal of an allocator that was renewed.
ghost use Rattle.std.specs.Prelude.{◌≡◌, ℕ, List, IfOk, IfSome, OnOk, codes, option_and_then, option_map};
ghost use Rattle.core_history.specs.History.{ReadsBack, history_data, history_in};
ghost use Rattle.json_values.specs.Texts.{json_of};
ghost use Rattle.json_values.specs.Spelling.{number_data};
ghost use Rattle.serde_json.specs.Data.{put};
ghost use Rattle.serde_json.specs.View.{members_view, view};
ghost use Rattle.durable_journal.specs.Beginnings.{BeginsMarked, Opens, OpensRenewed, OpensWhole, value_of};
ghost use Rattle.durable_journal.specs.Configured.{goes_on, has_jobs, renewed_value, with_history};
ghost use Rattle.durable_journal.specs.Marks.{marked as with_mark};

use crate::beginning::{FirstLine, line_of};
use allocation_core::{Core, JobSpec};
use core_history::{history_value, renewed_read_back};
use json_values::{Spelled, parse};
use replay_lines::are_jobs_of;
use sd_documents::{SdError, read_config};
use serde_json::{Map, Value, put};
use std::alloc::{AllocError, Global};

impl FirstLine {
    /// That of the document of a configuration with the core's history, as `configured` gives it with the mark. None where the document's jobs
    /// are not the core's. It opens the core again, and exactly the core where that was just renewed.
    pub fn renewed(
        alloc: Global,
        document: &[u8],
        core: &Core,
    ) -> Result<Option<FirstLine>, AllocError>
        ensures opens { IfOk result (λ o. IfSome o (Opens (goes_on core.now document.now))) }
        ensures again { IfOk result (λ o. IfSome o (OpensWhole core.now document.now)) }
        ensures whole { IfOk result (λ o. IfSome o (OpensRenewed core.now)) }
        ensures begins { IfOk result (λ o. IfSome o BeginsMarked) }
        ensures given { IfOk result (λ o. option_map value_of o ≡ renewed_value core.now document.now) }
    {
        if !has_jobs(alloc, document, core.fleet().jobs())? {
            return Ok(None);
        }
        renewed_read_back();
        let _count = core.report_rounds().count();
        renewed_line(alloc, document, core)
    }
}

/// Whether these are the jobs of the document of a configuration.
fn has_jobs(alloc: Global, document: &[u8], jobs: &[JobSpec]) -> Result<bool, AllocError>
    ensures { IfOk result (λ b. b ≡ has_jobs jobs.now document.now) }
{
    match read_config(alloc, document) {
        Ok(config) => {
            let same = are_jobs_of(jobs, config.jobs.as_slice());
            drop(config);
            Ok(same)
        }
        Err(SdError::Memory) => Err(AllocError),
        Err(error) => {
            drop(error);
            Ok(false)
        }
    }
}

fn renewed_line(
    alloc: Global,
    document: &[u8],
    core: &Core,
) -> Result<Option<FirstLine>, AllocError>
    ensures given { IfOk result (λ o. option_map value_of o ≡ option_and_then with_mark (option_and_then (with_history core.now) (json_of document.now))) }
    ensures reads_back { IfOk result (λ o. IfSome o (λ first. ReadsBack core.now (history_in (history_data core.now)))) }
{
    let Some(value) = parse(alloc, document)? else {
        return Ok(None);
    };
    match with_history(alloc, value, core)? {
        Some(renewed) => line_of(alloc, renewed),
        None => Ok(None),
    }
}

/// The object with the core's history as its member, and of how many rounds the core books reports.
fn with_history(alloc: Global, value: Value, core: &Core) -> Result<Option<Value>, AllocError>
    ensures form { IfOk result (λ o. option_map view o ≡ with_history core.now (view value)) }
    ensures reads_back { IfOk result (λ o. IfSome o (λ v. ReadsBack core.now (history_in (history_data core.now)))) }
{
    match value {
        Value::Object(mut members) => match put_history(alloc, &mut members, core) {
            Ok(()) => Ok(Some(Value::Object(members))),
            Err(error) => {
                drop(members);
                Err(error)
            }
        },
        _ => Ok(None),
    }
}

/// Puts the core's history among the members, and of how many rounds the core books reports.
fn put_history(
    alloc: Global,
    members: &mut Map<String, Value>,
    core: &Core,
) -> Result<(), AllocError>
    ensures form { OnOk result (members_view members.new.entries ≡ put (codes "report_rounds") (number_data core.now.report_rounds) (put (codes "history") (history_data core.now) (members_view members.old.entries))) }
    ensures reads_back { OnOk result (ReadsBack core.now (history_in (history_data core.now))) }
{
    let history = history_value(alloc, core)?;
    put(members, alloc, "history", history)?;
    let report_rounds = core.report_rounds().count().write(alloc)?;
    put(members, alloc, "report_rounds", report_rounds)
}
