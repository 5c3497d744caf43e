//! The relabelling rules of a scrape config, which are read later.
ghost use Rattle.std.specs.Prelude.{◌≡◌, IfOk, option_map};
ghost use Rattle.serde_json.specs.View.{view, items_view};
ghost use Rattle.sd_documents.specs.Reading.{Gives};
ghost use Rattle.sd_documents.specs.Config.{all_objects, few_rules, rules_said};

use crate::error::{Limit, Member, SdError};
use crate::json::count_of;
use crate::limits::MOST_RULES;
use lists::List;
use serde_json::Value;
use std::alloc::{AllocError, Global};

pub(crate) fn rules_in(
    alloc: Global,
    index: usize,
    found: Option<&Value>,
) -> Result<List<Value>, SdError>
    ensures { Gives (λ r. items_view r) result (rules_said index (option_map (λ v. view v.now) found.entry)) }
{
    let Some(value) = found else {
        return Ok(List::new(alloc));
    };
    let values = value
        .as_array()
        .ok_or(SdError::Shape(index, Member::RelabelConfigs))?;
    if !are_objects(values.as_slice()) {
        return Err(SdError::Shape(index, Member::RelabelConfigs));
    }
    few_rules_of(alloc, values.as_slice())
}

/// The rules, if there are no more than the most.
fn few_rules_of(alloc: Global, values: &[Value]) -> Result<List<Value>, SdError>
    ensures { Gives (λ r. items_view r) result (few_rules (items_view values.now)) }
{
    if count_of(values) > MOST_RULES {
        return Err(SdError::TooMany(Limit::Rules));
    }
    let rules = copies(alloc, values)?;
    Ok(rules)
}

/// Whether each is an object.
fn are_objects(values: &[Value]) -> bool
    ensures { result ≡ all_objects (items_view values.now) }
{
    for value in values {
        if !value.is_object() {
            return false;
        }
    }
    true
}

/// Equal copies of all values.
fn copies(alloc: Global, values: &[Value]) -> Result<List<Value>, AllocError>
    ensures { IfOk result (λ r. items_view r ≡ items_view values.now) }
{
    let mut all = List::new(alloc);
    for value in values {
        let copy = value.clone()?;
        all.push(copy)?;
    }
    Ok(all)
}
