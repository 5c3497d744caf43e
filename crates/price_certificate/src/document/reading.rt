//! The parts of a document.
ghost use Rattle.std.specs.Prelude.{◌≡◌, ◌≢◌, ℕ, List, Some, IfOk, IfSome, IfNone, codes};
ghost use Rattle.serde_json.specs.View.{view};
ghost use Rattle.price_certificate.specs.Problem.{Problem};
ghost use Rattle.json_values.specs.Texts.{ReadsAs, IsJson};
ghost use Rattle.json_values.specs.Spelling.{number_in, member_in};
ghost use Rattle.price_certificate.specs.Document.{draining_in, version_number, SpellsParts, SpellsPlan, SpellsInstance};
ghost use Rattle.price_certificate.specs.Rows.{rows_of};
ghost use Rattle.price_certificate.specs.declared.version.Version.{Version};

use super::reach::rows_in;
use crate::document::DocumentError;
use crate::instance::Instance;
use crate::plan::Plan;
use crate::rows::Rows;
use crate::shape::InstanceError;
use crate::version::Version;
use json_values::{FromJson, member, parse};
use lists::List;
use serde_json::Value;
use std::alloc::{AllocError, Global};

/// The version, the limits, the draining bins, the rows and the pairs before of an instance.
#[derive(Drop)]
struct Parts {
    version: Version,
    limits: List<u32>,
    draining: List<u32>,
    rows: Rows,
    before: List<(u32, u32)>,
}

/// The value of a JSON text.
pub(crate) fn json_in(alloc: Global, bytes: &[u8]) -> Result<Value, DocumentError>
    ensures ok { IfOk result (λ v. ReadsAs bytes.now (view v)) }
    ensures not_json { result ≡ Err DocumentError.NotJson → ¬ IsJson bytes.now }
    ensures others { ¬ (result ≡ Err DocumentError.Shape) }
{
    parse(alloc, bytes)?.ok_or(DocumentError::NotJson)
}

/// The instance that a document spells.
pub(crate) fn instance_in(alloc: Global, value: &Value) -> Result<Option<Instance>, AllocError>
    ensures some { IfOk result (λ o. IfSome o (λ i. SpellsInstance (view value.now) i)) }
    ensures none { IfOk result (λ o. IfNone o ((p : Problem) → ¬ SpellsInstance (view value.now) p)) }
{
    let Some(parts) = parts_in(alloc, value)? else {
        return Ok(None);
    };
    let Parts {
        version,
        limits,
        draining,
        rows,
        before,
    } = parts;
    match Instance::of_version(alloc, version, limits, draining.as_slice(), rows, before) {
        Ok(instance) => Ok(Some(instance)),
        Err(InstanceError::Shape) => Ok(None),
        Err(InstanceError::Memory) => Err(AllocError),
    }
}

fn parts_in(alloc: Global, value: &Value) -> Result<Option<Parts>, AllocError>
    ensures some { IfOk result (λ o. IfSome o (λ s. SpellsParts (view value.now) s.version s.limits s.draining (rows_of s.rows) s.before)) }
    ensures none { IfOk result
        (λ o. IfNone o ((version : Version) (limits draining : List ℕ) (rows : List (List ℕ)) (before : List (ℕ × ℕ))
        → ¬ SpellsParts (view value.now) version limits draining rows before)) }
{
    let Some(version) = version_in(alloc, value)? else {
        return Ok(None);
    };
    let Some(limits) = member(alloc, value, "bins")? else {
        return Ok(None);
    };
    let Some(draining) = draining_in(alloc, version, value)? else {
        return Ok(None);
    };
    let Some(rows) = rows_in(alloc, value)? else {
        return Ok(None);
    };
    let Some(before) = member(alloc, value, "before")? else {
        return Ok(None);
    };
    Ok(Some(Parts {
        version,
        limits,
        draining,
        rows,
        before,
    }))
}

/// The version of a document.
fn version_in(alloc: Global, value: &Value) -> Result<Option<Version>, AllocError>
    ensures some { IfOk result (λ o. IfSome o (λ v. member_in number_in (codes "version") (view value.now) ≡ Some (version_number v))) }
    ensures none { IfOk result (λ o. IfNone o ((v : Version) → member_in number_in (codes "version") (view value.now) ≢ Some (version_number v))) }
{
    match member(alloc, value, "version")? {
        Some(1u32) => Ok(Some(Version::One)),
        Some(2u32) => Ok(Some(Version::Two)),
        _ => Ok(None),
    }
}

/// The draining bins of a document, none in version 1.
fn draining_in(
    alloc: Global,
    version: Version,
    value: &Value,
) -> Result<Option<List<u32>>, AllocError>
    ensures { IfOk result (λ o. o ≡ draining_in version (view value.now)) }
{
    match version {
        Version::One => Ok(Some(List::new(alloc))),
        Version::Two => member(alloc, value, "draining"),
    }
}

/// The plan that a document spells.
pub(crate) fn plan_in(alloc: Global, value: &Value) -> Result<Option<Plan>, AllocError>
    ensures some { IfOk result
        (λ o. IfSome o (λ p. SpellsPlan (view value.now) p.pairs p.item_prices p.bin_prices)) }
    ensures none { IfOk result
        (λ o. IfNone o ((pairs : List (ℕ × ℕ)) (item_prices bin_prices : List ℕ)
        → ¬ SpellsPlan (view value.now) pairs item_prices bin_prices)) }
{
    Plan::read(alloc, value)
}
