//! The parts of a document that is written.
ghost use Rattle.std.specs.Prelude.{◌≡◌, Some, IfOk};
ghost use Rattle.serde_json.specs.View.{view};
ghost use Rattle.price_certificate.specs.Instances.{problem_in};
ghost use Rattle.spread_certificate.specs.Document.{certificate_in, spread_in, spread_data, spread_document_data, with_spread};
ghost use Rattle.spread_certificate.specs.declared.certificate.Certificate.TheVariants as certificate;

use crate::spread::Spread;
use json_values::Spelled;
use price_certificate::{Instance, document_value};
use serde_json::{Value, json, put};
use std::alloc::{AllocError, Global};

/// The value that spells an instance and a spread.
pub(crate) fn value_of(
    alloc: Global,
    instance: &Instance,
    spread: &Spread,
) -> Result<Value, AllocError>
    ensures form { IfOk result (λ v. view v ≡ spread_document_data instance.now spread.now) }
    ensures instance { IfOk result (λ v. problem_in (view v) ≡ Some instance.now) }
    ensures certificate { IfOk result (λ v. certificate_in (view v) ≡ Some (certificate.Spread spread.now)) }
{
    let document = document_value(alloc, instance, &spread.plan)?;
    let value = spread_value(alloc, spread)?;
    add_spread(alloc, document, value)
}

/// The object with the member `spread`.
fn add_spread(alloc: Global, document: Value, spread: Value) -> Result<Value, AllocError>
    ensures { IfOk result (λ v. view v ≡ with_spread (view spread) (view document)) }
{
    match document {
        Value::Object(members) => {
            let mut members = members;
            put(&mut members, alloc, "spread", spread)?;
            Ok(Value::Object(members))
        }
        other => Ok(other),
    }
}

/// The value of the member `spread`.
#[tactic(auto, unfolding(crate::specs::Document::spread_in))]
fn spread_value(alloc: Global, spread: &Spread) -> Result<Value, AllocError>
    ensures form { IfOk result (λ v. view v ≡ spread_data spread.now) }
    ensures reads_back { IfOk result (λ v. spread_in spread.now.plan (view v) ≡ Some spread.now) }
{
    let caps = spread.caps.write(alloc)?;
    let item_prices = spread.free_item_prices.write(alloc)?;
    let bin_prices = spread.free_bin_prices.write(alloc)?;
    match &spread.even {
        Some(even) => {
            let even = even.write(alloc)?;
            json!(in alloc; {"caps": caps, "even": even, "free_bin_prices": bin_prices, "free_item_prices": item_prices})
        }
        None => {
            json!(in alloc; {"caps": caps, "free_bin_prices": bin_prices, "free_item_prices": item_prices})
        }
    }
}
