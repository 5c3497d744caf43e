//! The member `reach` of a document: a list of bins for each item, or lists that items share.
ghost use Rattle.std.specs.Prelude.{◌≡◌, IfOk, codes, nat_lt, option_map};
ghost use Rattle.std.specs.List.{list_all};
ghost use Rattle.serde_json.specs.View.{view};
ghost use Rattle.json_values.specs.Spelling.{list_in, member_in, number_in};
ghost use Rattle.price_certificate.specs.Reach.{may_share, rows_in, shared_in, shared_rows};
ghost use Rattle.price_certificate.specs.Rows.{rows_of};

use crate::rows::{Rows, has_few_pairs, one_each};
use crate::shape::MOST_ITEMS;
use json_values::{FromJson, member};
use lists::List;
use serde_json::Value;
use std::alloc::{AllocError, Global};

/// The bins of each item.
pub(crate) fn rows_in(alloc: Global, value: &Value) -> Result<Option<Rows>, AllocError>
    ensures { IfOk result (λ o. option_map rows_of o ≡ member_in rows_in (codes "reach") (view value.now)) }
{
    match value.get("reach") {
        Some(reach) => rows_by(alloc, reach),
        None => Ok(None),
    }
}

fn rows_by(alloc: Global, reach: &Value) -> Result<Option<Rows>, AllocError>
    ensures { IfOk result (λ o. option_map rows_of o ≡ rows_in (view reach.now)) }
{
    match reach {
        Value::Object(_) => shared_in(alloc, reach),
        _ => listed(alloc, reach),
    }
}

fn shared_in(alloc: Global, reach: &Value) -> Result<Option<Rows>, AllocError>
    ensures { IfOk result (λ o. option_map rows_of o ≡ shared_in (view reach.now)) }
{
    let Some(lists): Option<List<List<u32>>> = member(alloc, reach, "rows")? else {
        return Ok(None);
    };
    match member::<List<u32>>(alloc, reach, "row_of") {
        Ok(Some(list_of)) => Ok(shared_rows(Rows { lists, list_of })),
        Ok(None) => Ok(None),
        Err(error) => Err(error),
    }
}

/// A list for each item.
fn listed(alloc: Global, reach: &Value) -> Result<Option<Rows>, AllocError>
    ensures { IfOk result (λ o. option_map rows_of o ≡ list_in (list_in number_in) (view reach.now)) }
{
    match FromJson::read(alloc, reach)? {
        Some(lists) => Ok(Some(one_each(alloc, lists)?)),
        None => Ok(None),
    }
}

/// The rows, unless a number is that of no list, or they are more than an instance may have.
fn shared_rows(rows: Rows) -> Option<Rows>
    ensures { option_map rows_of result ≡ shared_rows rows.lists rows.list_of }
{
    if may_share(rows.lists.as_slice(), rows.list_of.as_slice()) {
        return Some(rows);
    }
    drop(rows);
    None
}

fn may_share(rows: &[List<u32>], list_of: &[u32]) -> bool
    ensures { result ≡ may_share rows.now list_of.now }
{
    are_numbers(rows.len(), list_of) && list_of.len() <= MOST_ITEMS && has_few_pairs(rows, list_of)
}

fn are_numbers(count: usize, list_of: &[u32]) -> bool
    ensures { result ≡ list_all (λ number. nat_lt number count) list_of.now }
{
    list_of.iter().all(|number| (*number as usize) < count)
}
