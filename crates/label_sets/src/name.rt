//! Label names.
ghost use Rattle.std.specs.Prelude.{◌≡◌, ◌↔◌, IfOk, IsTrue, false};
ghost use Rattle.std.specs.List.{list_all};
ghost use Rattle.label_sets.specs.Name.{is_label_name, is_name_start, is_name_part};

use crate::error::LabelError;
use lists::{Plain, Text};
use std::alloc::{AllocError, Global};
use std::cmp::Ordering;
use std::convert::AsStr;
use std::marker::Model;

/// A label name. Contracts see its bytes.
#[derive(Debug, Drop)]
pub struct LabelName {
    text: Text,
}

impl Model for LabelName {
    ghost use Rattle.std.specs.Prelude.{List, ℕ, IsTrue};
    ghost use Rattle.label_sets.specs.Name.{is_label_name};

    ghost Value = { List ℕ };

    ghost view = { λ n. n.text };

    ghost invariant = { λ n. IsTrue (is_label_name n.text) };
}

impl LabelName {
    /// The name that the text is.
    pub fn read(alloc: Global, text: &str) -> Result<LabelName, LabelError>
        ensures name { IfOk result (λ n. n ≡ text.now) }
        ensures bad { (result ≡ Err LabelError.BadLabelName) ↔ (is_label_name text.now ≡ false) }
    {
        if !is_label_name(text) {
            return Err(LabelError::BadLabelName);
        }
        let name = LabelName::of_name(alloc, text)?;
        Ok(name)
    }

    /// The name of a text that is one.
    pub(crate) fn of_name(alloc: Global, text: &str) -> Result<LabelName, AllocError>
        requires { IsTrue (is_label_name text.now) }
        ensures { IfOk result (λ n. n ≡ text.now) }
    {
        let text = Text::from_str(alloc, text)?;
        Ok(LabelName { text })
    }

    pub fn as_str(&self) -> &str
        ensures text { result.now ≡ self.now }
        ensures name { IsTrue (is_label_name self.now) }
    {
        self.text.as_str()
    }
}

/// Whether the text is a label name. It takes no memory.
pub fn is_label_name(text: &str) -> bool
    ensures { result ≡ is_label_name text.now }
{
    match text.as_bytes().split_first() {
        Some((first, others)) => is_start(*first) && all_parts(others),
        None => false,
    }
}

fn all_parts(bytes: &[u8]) -> bool
    ensures { result ≡ list_all is_name_part bytes.now }
{
    bytes.iter().all(|byte| is_part(*byte))
}

fn is_start(byte: u8) -> bool
    ensures { result ≡ is_name_start byte }
{
    byte.is_ascii_alphabetic() || byte == b'_'
}

fn is_part(byte: u8) -> bool
    ensures { result ≡ is_name_part byte }
{
    byte.is_ascii_alphanumeric() || byte == b'_'
}

impl AsStr for LabelName {
    ghost text = { λ n. n };

    fn as_str(&self) -> &str {
        self.text.as_str()
    }
}

impl Plain for LabelName {
    fn copy(&self) -> Result<LabelName, AllocError> {
        let text = self.text.copy()?;
        Ok(LabelName { text })
    }

    fn same(&self, other: &LabelName) -> bool {
        self.text.same(&other.text)
    }
}

impl PartialEq for LabelName {
    ghost use Rattle.std.proofs.Common.{rules};
    ghost use Rattle.std.specs.Cmp.Rules.{comparing};
    ghost use Rattle.std.specs.Str.{bytes_eq};

    ghost eq = { bytes_eq };

    ghost laws = { Prim.search (comparing, rules) };

    fn eq(&self, other: &LabelName) -> bool {
        self.text.as_str() == other.text.as_str()
    }
}

impl Eq for LabelName {
    ghost use Rattle.std.proofs.Common.{rules};
    ghost use Rattle.std.specs.Cmp.Rules.{comparing};

    ghost laws = { Prim.search (comparing, rules) };
}

impl PartialOrd for LabelName {
    ghost use Rattle.std.proofs.Common.{rules};
    ghost use Rattle.std.specs.Cmp.Rules.{comparing};
    ghost use Rattle.std.specs.Cmp.{partial_order_from_own_ties};
    ghost use Rattle.std.specs.Ordering.{as_partial_cmp};
    ghost use Rattle.label_sets.specs.Labels.{byte_cmp};

    ghost partial_cmp = { as_partial_cmp byte_cmp };

    ghost laws = { partial_order_from_own_ties (Prim.search (comparing, rules)) (Prim.search (comparing, rules)) };

    fn partial_cmp(&self, other: &LabelName) -> Option<Ordering> {
        Some(self.cmp(other))
    }
}

impl Ord for LabelName {
    ghost use Rattle.std.proofs.Common.{rules};
    ghost use Rattle.std.specs.Cmp.Rules.{comparing};
    ghost use Rattle.label_sets.specs.Labels.{byte_cmp};

    ghost cmp = { byte_cmp };

    ghost total = { Prim.search (comparing, rules) };

    ghost matches_partial_cmp = { Prim.search (comparing, rules) };

    ghost matches_eq = { Prim.search (comparing, rules) };

    fn cmp(&self, other: &LabelName) -> Ordering {
        self.text.as_str().cmp(other.text.as_str())
    }
}
