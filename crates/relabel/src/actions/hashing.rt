//! Sharding by a digest.
ghost use Rattle.std.specs.Prelude.{◌≡◌, OnOk, IsTrue};
ghost use Rattle.relabel.specs.Spelling.{is_hash_mod};
ghost use Rattle.relabel.specs.Effect.{hash_of as hash_of_text, hashed};

use crate::input::input_of;
use crate::rule_matcher::RuleMatcher;
use label_sets::{LabelError, Labels};
use md5::{Digest, Md5};
use std::alloc::{AllocError, Global};

impl<'r> RuleMatcher<'r> {
    pub(crate) fn hash(&self, alloc: Global, labels: &mut Labels) -> Result<(), AllocError>
        requires { IsTrue (is_hash_mod self.now.action) }
        ensures { OnOk result (labels.new ≡ hashed self.now labels.old) }
    {
        let rule = self.rule.settings();
        let input = input_of(alloc, rule, labels)?;
        let shard = hash_of(input.as_str()) % rule.modulus;
        let text = format!(in alloc; "{shard}")?;
        match labels.set(rule.target_label.as_str(), text.as_str()) {
            Ok(()) => Ok(()),
            Err(LabelError::BadLabelName) => unreachable!(),
            Err(LabelError::Memory) => Err(AllocError),
        }
    }
}

/// The last eight bytes of the digest of a text, the highest first.
fn hash_of(text: &str) -> u64
    ensures { result ≡ hash_of_text text.now }
{
    let digest = Md5::digest(text.as_bytes());
    u64::from_be_bytes([
        digest[8], digest[9], digest[10], digest[11], digest[12], digest[13], digest[14],
        digest[15],
    ])
}
