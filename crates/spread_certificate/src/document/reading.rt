//! The parts of a document.
ghost use Rattle.std.specs.Prelude.{◌≡◌, IfOk};
ghost use Rattle.serde_json.specs.Find.{get};
ghost use Rattle.serde_json.specs.View.{view};
ghost use Rattle.spread_certificate.specs.Document.{optional_in, even_in, spread_in, certificate_in};

use crate::certificate::Certificate;
use crate::even::Even;
use crate::spread::Spread;
use json_values::{FromJson, member};
use price_certificate::Plan;
use serde_json::Value;
use std::alloc::{AllocError, Global};

/// What a document proposes.
#[tactic(auto, unfolding(crate::specs::Document::certificate_in))]
pub(crate) fn certificate_of(
    alloc: Global,
    value: &Value,
) -> Result<Option<Certificate>, AllocError>
    ensures { IfOk result (λ o. o ≡ certificate_in (view value.now)) }
{
    let Some(plan) = Plan::read(alloc, value)? else {
        return Ok(None);
    };
    let Some(found) = value.get("spread") else {
        return Ok(Some(Certificate::Plan(plan)));
    };
    match spread_of(alloc, plan, found)? {
        Some(spread) => Ok(Some(Certificate::Spread(spread))),
        None => Ok(None),
    }
}

/// The spread of a plan: what an object says beside it, if it says that.
#[tactic(auto, unfolding(crate::specs::Document::spread_in))]
pub fn spread_of(alloc: Global, plan: Plan, value: &Value) -> Result<Option<Spread>, AllocError>
    ensures { IfOk result (λ o. o ≡ spread_in plan (view value.now)) }
{
    let Some(caps) = member(alloc, value, "caps")? else {
        return Ok(None);
    };
    let Some(free_item_prices) = member(alloc, value, "free_item_prices")? else {
        return Ok(None);
    };
    let Some(free_bin_prices) = member(alloc, value, "free_bin_prices")? else {
        return Ok(None);
    };
    let Some(even) = optional::<Even>(alloc, value, "even")? else {
        return Ok(None);
    };
    Ok(Some(Spread {
        caps,
        plan,
        free_item_prices,
        free_bin_prices,
        even,
    }))
}

/// What a member spells that may be left out.
pub(crate) fn optional<T: FromJson>(
    alloc: Global,
    value: &Value,
    name: &str,
) -> Result<Option<Option<T>>, AllocError>
    ensures { IfOk result (λ o. o ≡ optional_in T.spelled (get name.now (view value.now))) }
{
    let Some(found) = value.get(name) else {
        return Ok(Some(None));
    };
    match T::read(alloc, found)? {
        Some(said) => Ok(Some(Some(said))),
        None => Ok(None),
    }
}
