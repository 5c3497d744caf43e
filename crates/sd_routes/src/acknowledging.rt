//! The text of a list that is acknowledged.
ghost use Rattle.std.specs.Prelude.{◌≡◌, IfOk, OnOk, List, drop};
ghost use Rattle.std.specs.Fmt.{decimal};
ghost use Rattle.serde_json.specs.Data.{string, object, no_members};
ghost use Rattle.serde_json.specs.View.{view, members_view};
ghost use Rattle.serde_json.specs.Written.{compact_text};
ghost use Rattle.json_values.specs.Spelling.{list_data};
ghost use Rattle.target_shares.specs.declared.numbered_target.NumberedTarget.{NumberedTarget};
ghost use Rattle.sd_routes.specs.Acknowledging.{acknowledged_data, is_end as is_end_text, own_group, own_labels, with_first};
ghost use Rattle.sd_routes.specs.Pages.{group_data};

use crate::list_head::ListHead;
use crate::members::{object_of, put_text};
use bytes::Bytes;
use json_values::text_of;
use lists::Text;
use serde_json::{Map, Value, json, put};
use std::alloc::{AllocError, Global};

/// The text of a list with this head and these groups, and before them the service itself, as collectors reach it: whoever scrapes that
/// follows the list.
#[tactic(auto, using(crate::proofs::Acknowledged::with_own_group))]
pub fn acknowledged_list(
    alloc: Global,
    at: &str,
    job: &str,
    head: &ListHead,
    groups: &[u8],
) -> Result<Bytes, AllocError>
    ensures { (targets : List NumberedTarget) → groups.now ≡ compact_text (list_data group_data targets)
        → IfOk result (λ list. list ≡ compact_text (acknowledged_data at.now job.now head.now targets)) }
{
    let own = own_text(alloc, at, job, head)?;
    let list = with_first(alloc, own.as_str().as_bytes(), groups)?;
    Ok(Bytes::from_vec(list)?)
}

/// The text of a list with one item more, which stands first.
fn with_first(alloc: Global, first: &[u8], list: &[u8]) -> Result<Vec<u8>, AllocError>
    ensures { IfOk result (λ text. text.items ≡ with_first first.now list.now) }
{
    let rest = past_bracket(list);
    let mut text = Vec::new(alloc);
    text.push(b'[')?;
    text.extend_from_slice(first)?;
    if !is_end(rest) {
        text.push(b',')?;
    }
    text.extend_from_slice(rest)?;
    Ok(text)
}

fn past_bracket(list: &[u8]) -> &[u8]
    ensures { result.now ≡ drop 1 list.now }
{
    match list {
        [_, rest @ ..] => rest,
        [] => &[],
    }
}

/// Whether a list is at its end.
fn is_end(rest: &[u8]) -> bool
    ensures { result ≡ is_end_text rest.now }
{
    match rest {
        [first, ..] => *first == b']',
        [] => true,
    }
}

#[tactic(auto, using(crate::proofs::Floats::own_no_float))]
fn own_text(alloc: Global, at: &str, job: &str, head: &ListHead) -> Result<Text, AllocError>
    ensures { IfOk result (λ t. t ≡ compact_text (own_group at.now job.now head.now)) }
{
    let own = own_group(alloc, at, job, head)?;
    text_of(alloc, &own)
}

/// The group of the service itself.
fn own_group(alloc: Global, at: &str, job: &str, head: &ListHead) -> Result<Value, AllocError>
    ensures { IfOk result (λ v. view v ≡ own_group at.now job.now head.now) }
{
    let labels = own_labels(alloc, job, head)?;
    json!(in alloc; {"labels": labels, "targets": [at]})
}

fn own_labels(alloc: Global, job: &str, head: &ListHead) -> Result<Value, AllocError>
    ensures { IfOk result (λ v. view v ≡ own_labels job.now head.now) }
{
    let mut members = Map::new(alloc);
    let done = put_own_labels(&mut members, alloc, job, head);
    object_of(done, members)
}

fn put_own_labels(
    members: &mut Map<String, Value>,
    alloc: Global,
    job: &str,
    head: &ListHead,
) -> Result<(), AllocError>
    requires { members_view members.old.entries ≡ no_members }
    ensures { OnOk result (object (members_view members.new.entries) ≡ own_labels job.now head.now) }
{
    put_text(members, alloc, "__metrics_path__", "/acknowledged")?;
    let collector = number_value(alloc, u64::from(head.collector))?;
    put(members, alloc, "__param_collector", collector)?;
    let epoch = number_value(alloc, head.epoch)?;
    put(members, alloc, "__param_epoch", epoch)?;
    put_text(members, alloc, "__param_job", job)?;
    let list = number_value(alloc, u64::from(head.allocation))?;
    put(members, alloc, "__param_list", list)?;
    put_text(members, alloc, "__scheme__", "http")
}

/// A number in decimal, as a text.
fn number_value(alloc: Global, number: u64) -> Result<Value, AllocError>
    ensures { IfOk result (λ v. view v ≡ string (decimal number)) }
{
    Ok(Value::String(format!(in alloc; "{number}")?))
}
