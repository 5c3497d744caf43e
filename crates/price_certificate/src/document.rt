//! The JSON document of a certificate: an instance and a plan.
ghost use Rattle.std.specs.Prelude.{◌≡◌, ℕ, List, Some, IfOk};
ghost use Rattle.serde_json.specs.View.{view};
ghost use Rattle.serde_json.specs.Written.{compact_text};
ghost use Rattle.price_certificate.specs.Problem.{Problem};
ghost use Rattle.json_values.specs.Texts.{IsJson};
ghost use Rattle.price_certificate.specs.Instances.{problem_in};
ghost use Rattle.price_certificate.specs.Plan.{plan_in};
ghost use Rattle.price_certificate.specs.Document.{IsInstanceDocument, IsDocument, document_data, shared_document_data};

mod reach;
mod reading;
mod sharing;
mod writing;

use crate::instance::Instance;
use crate::plan::Plan;
use reading::{instance_in, json_in, plan_in};
use serde_json::Value;
use std::alloc::{AllocError, Global};
use thiserror::Error;
use writing::value_of;

/// Why a document was not read.
#[derive(Debug, Drop, Error)]
pub enum DocumentError {
    #[error("no JSON")]
    NotJson,
    #[error("the JSON is no such document")]
    Shape,
    #[error("no memory")]
    Memory,
}

impl From<AllocError> for DocumentError {
    ghost use Rattle.std.specs.Prelude.{◌≡◌};
    ghost use Rattle.price_certificate.specs.declared.document.DocumentError.TheVariants.{Memory};

    ghost from_gives = { λ _ e. e ≡ Memory };

    fn from(_refused: AllocError) -> DocumentError {
        DocumentError::Memory
    }
}

/// Reads the document of an instance and a plan. What `pairs` says of items and bins is left to the checker.
pub fn read_document(alloc: Global, bytes: &[u8]) -> Result<(Instance, Plan), DocumentError>
    ensures ok { IfOk result (λ r. IsDocument bytes.now r.0 r.1.pairs r.1.item_prices r.1.bin_prices) }
    ensures not_json { result ≡ Err DocumentError.NotJson → ¬ IsJson bytes.now }
    ensures is_json { result ≡ Err DocumentError.Shape → IsJson bytes.now }
    ensures shape { result ≡ Err DocumentError.Shape
        → (p : Problem) (pairs : List (ℕ × ℕ)) (item_prices bin_prices : List ℕ)
        → ¬ IsDocument bytes.now p pairs item_prices bin_prices }
{
    let value = json_in(alloc, bytes)?;
    let Some(plan) = plan_in(alloc, &value)? else {
        return Err(DocumentError::Shape);
    };
    let Some(instance) = instance_in(alloc, &value)? else {
        return Err(DocumentError::Shape);
    };
    Ok((instance, plan))
}

/// Reads the document of an instance. Members of a plan are ignored, whatever they hold.
pub fn read_instance(alloc: Global, bytes: &[u8]) -> Result<Instance, DocumentError>
    ensures ok { IfOk result (λ i. IsInstanceDocument bytes.now i) }
    ensures not_json { result ≡ Err DocumentError.NotJson → ¬ IsJson bytes.now }
    ensures is_json { result ≡ Err DocumentError.Shape → IsJson bytes.now }
    ensures shape { result ≡ Err DocumentError.Shape → (p : Problem) → ¬ IsInstanceDocument bytes.now p }
{
    let value = json_in(alloc, bytes)?;
    let Some(instance) = instance_in(alloc, &value)? else {
        return Err(DocumentError::Shape);
    };
    Ok(instance)
}

/// Writes the document of an instance and a plan: compact, the members in order of their names, and the pairs before in
/// order of items.
pub fn write_document(
    alloc: Global,
    instance: &Instance,
    plan: &Plan,
) -> Result<Vec<u8>, AllocError>
    ensures form { IfOk result (λ b. b.items ≡ compact_text (document_data instance.now plan.now.pairs plan.now.item_prices plan.now.bin_prices)) }
    ensures reads_back { IfOk result (λ b. IsDocument b.items instance.now plan.now.pairs plan.now.item_prices plan.now.bin_prices) }
{
    value_of(alloc, instance, plan, false)?.to_vec(alloc)
}

/// The instance that a JSON value spells, if it spells one. Members of a plan are ignored, whatever they hold.
pub fn instance_of(alloc: Global, value: &Value) -> Result<Option<Instance>, AllocError>
    ensures { IfOk result (λ o. o ≡ problem_in (view value.now)) }
{
    instance_in(alloc, value)
}

/// The document of an instance and a plan as a JSON value.
pub fn document_value(alloc: Global, instance: &Instance, plan: &Plan) -> Result<Value, AllocError>
    ensures form { IfOk result (λ v. view v ≡ document_data instance.now plan.now.pairs plan.now.item_prices plan.now.bin_prices) }
    ensures instance { IfOk result (λ v. problem_in (view v) ≡ Some instance.now) }
    ensures plan { IfOk result (λ v. plan_in (view v) ≡ Some plan.now) }
{
    value_of(alloc, instance, plan, false)
}

/// The same document where items share their lists of bins, which takes far less where many items have the same.
pub fn shared_document_value(
    alloc: Global,
    instance: &Instance,
    plan: &Plan,
) -> Result<Value, AllocError>
    ensures form { IfOk result (λ v. view v ≡ shared_document_data instance.now plan.now.pairs plan.now.item_prices plan.now.bin_prices) }
    ensures instance { IfOk result (λ v. problem_in (view v) ≡ Some instance.now) }
    ensures plan { IfOk result (λ v. plan_in (view v) ≡ Some plan.now) }
{
    value_of(alloc, instance, plan, true)
}

/// A text is the document of one instance and one plan at most, so what is written reads back as what it was written of.
pub fn one_document()
    ensures { (bytes : List ℕ) (p q : Problem) (ps qs : List (ℕ × ℕ)) (us vs ws xs : List ℕ)
        → IsDocument bytes p ps us ws → IsDocument bytes q qs vs xs
        → (p ≡ q) × (ps ≡ qs) × (us ≡ vs) × (ws ≡ xs) }
{}

/// A text is the document of one instance at most.
pub fn one_instance()
    ensures { (bytes : List ℕ) (p q : Problem)
        → IsInstanceDocument bytes p → IsInstanceDocument bytes q → p ≡ q }
{}
