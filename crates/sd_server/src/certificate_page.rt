//! The page of a certificate.
ghost use Rattle.std.specs.Prelude.{◌≡◌, IfOk};
ghost use Rattle.serde_json.specs.Written.{compact_text};
ghost use Rattle.price_certificate.specs.Document.{document_data};

use lists::Text;
use price_certificate::{Instance, Plan, write_document};
use std::alloc::{AllocError, Global};

/// The certificate's document as a text. A document is UTF-8, so that only want of memory refuses it.
pub(crate) fn certificate_page(
    alloc: Global,
    instance: &Instance,
    plan: &Plan,
) -> Result<Text, AllocError>
    ensures { IfOk result (λ t. t ≡ compact_text (document_data instance.now plan.now.pairs plan.now.item_prices plan.now.bin_prices)) }
{
    let document = write_document(alloc, instance, plan)?;
    match String::from_utf8(document) {
        Ok(text) => Ok(Text::from_string(text)),
        Err(_) => Err(AllocError),
    }
}
