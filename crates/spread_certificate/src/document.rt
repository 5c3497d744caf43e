//! The JSON document of a certificate: an instance with a plan, or with a spread.
ghost use Rattle.std.specs.Prelude.{◌≡◌, ℕ, List, Some, IfOk};
ghost use Rattle.serde_json.specs.View.{view};
ghost use Rattle.serde_json.specs.Written.{compact_text};
ghost use Rattle.json_values.specs.Texts.{ReadsAs, IsJson};
ghost use Rattle.price_certificate.specs.Problem.{Problem};
ghost use Rattle.price_certificate.specs.Instances.{problem_in};
ghost use Rattle.price_certificate.specs.declared.document.DocumentError.{DocumentError as DocumentFault};
ghost use Rattle.price_certificate.specs.declared.document.DocumentError.TheVariants as document;
ghost use Rattle.spread_certificate.specs.Document.{IsCertificateDocument, PlanDocumentsStay, certificate_in, spread_document_data};
ghost use Rattle.spread_certificate.specs.declared.certificate.Certificate.{Certificate as CertificateSaid};
ghost use Rattle.spread_certificate.specs.declared.certificate.Certificate.TheVariants as certificate;

mod reading;
mod writing;

use crate::certificate::Certificate;
use crate::spread::Spread;
use json_values::parse;
use price_certificate::{DocumentError, Instance, instance_of};
use reading::certificate_of;
pub(crate) use reading::optional;
pub use reading::spread_of;
use serde_json::Value;
use std::alloc::{AllocError, Global};
use writing::value_of;

/// Reads the document of an instance and a plan, or a spread where it has a member `spread`. What it says of items and bins is
/// left to the checker.
pub fn read_spread_document(
    alloc: Global,
    bytes: &[u8],
) -> Result<(Instance, Certificate), DocumentError>
    ensures ok { IfOk result (λ r. IsCertificateDocument bytes.now r.0 r.1) }
    ensures not_json { result ≡ Err DocumentError.NotJson → ¬ IsJson bytes.now }
    ensures is_json { result ≡ Err DocumentError.Shape → IsJson bytes.now }
    ensures shape { result ≡ Err DocumentError.Shape → (p : Problem) (said : CertificateSaid) → ¬ IsCertificateDocument bytes.now p said }
{
    let value = json_in(alloc, bytes)?;
    let Some(certificate) = certificate_of(alloc, &value)? else {
        return Err(DocumentError::Shape);
    };
    let Some(instance) = instance_of(alloc, &value)? else {
        return Err(DocumentError::Shape);
    };
    Ok((instance, certificate))
}

/// The value of a JSON text.
fn json_in(alloc: Global, bytes: &[u8]) -> Result<Value, DocumentError>
    ensures ok { IfOk result (λ v. ReadsAs bytes.now (view v)) }
    ensures not_json { result ≡ Err DocumentError.NotJson → ¬ IsJson bytes.now }
    ensures others { ¬ (result ≡ Err DocumentError.Shape) }
{
    parse(alloc, bytes)?.ok_or(DocumentError::NotJson)
}

/// Writes the document of an instance and a spread: compact, the members in order of their names, and the pairs before in order
/// of items.
pub fn write_spread_document(
    alloc: Global,
    instance: &Instance,
    spread: &Spread,
) -> Result<Vec<u8>, AllocError>
    ensures form { IfOk result (λ b. b.items ≡ compact_text (spread_document_data instance.now spread.now)) }
    ensures reads_back { IfOk result (λ b. IsCertificateDocument b.items instance.now (certificate.Spread spread.now)) }
{
    value_of(alloc, instance, spread)?.to_vec(alloc)
}

/// A document of a plan is what it is without spreads.
pub fn plan_documents_stay()
    ensures { PlanDocumentsStay }
{}

/// A text is the document of one instance and one certificate at most.
pub fn one_certificate()
    ensures { (bytes : List ℕ) (p q : Problem) (one other : CertificateSaid) → IsCertificateDocument bytes p one → IsCertificateDocument bytes q other → (p ≡ q) × (one ≡ other) }
{}
