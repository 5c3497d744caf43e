//! Final targets, and how a label set is finished to one.
ghost use Rattle.std.specs.Prelude.{◌≡◌, ◌++◌, IfOk, IsTrue, IsUtf8, OnOk};
ghost use Rattle.json.specs.Lex.{tokens};
ghost use Rattle.serde_json.specs.View.{view};
ghost use Rattle.json_values.specs.Texts.{ReadsTokens, tokens_of};
ghost use Rattle.label_sets.specs.Finish.{finished};
ghost use Rattle.label_sets.specs.Target.{IsFinal, target_data, target_label, target_text};

use crate::labels::Labels;
use crate::texts::{put_target, text_of_target, value_of_target};
use json::Writer;
use lists::{Plain, Text};
use serde_json::Value;
use std::alloc::{AllocError, Global};
use std::convert::AsStr;
use std::marker::Model;
use std::sync::Arc;

/// A final target, of which copies share what it is made of. Contracts see its address and the labels of its group's text.
#[derive(Debug, Drop)]
pub struct Target {
    parts: Arc<Parts>,
}

/// What a target is made of.
#[derive(Debug, Drop)]
struct Parts {
    labels: Labels,
    address: Text,
    text: Text,
}

impl Model for Target {
    ghost use Rattle.std.specs.Prelude.{◌≡◌};
    ghost use Rattle.std.specs.Arc.{arc_value};
    ghost use Rattle.label_sets.specs.Parts.{AreFinal, target_of};
    ghost use Rattle.label_sets.specs.Target.{FinalTarget};

    ghost Value = { FinalTarget };

    ghost view = { λ t. target_of (arc_value t.parts) };

    ghost invariant = { λ t. AreFinal (arc_value t.parts) };
}

impl Target {
    /// The target of an address and the labels of its group.
    pub(crate) fn of_parts(
        alloc: Global,
        labels: Labels,
        address: Text,
    ) -> Result<Target, AllocError>
        requires { IsFinal (record { address = address; labels = labels }) }
        ensures { IfOk result (λ t. t ≡ record { address = address; labels = labels }) }
    {
        let text = text_of_target(alloc, labels.entries(), address.as_str())?;
        Ok(Target {
            parts: Arc::new(
                alloc,
                Parts {
                    labels,
                    address,
                    text,
                },
            )?,
        })
    }

    /// The labels of the group's text.
    pub fn labels(&self) -> &Labels
        ensures { result.now ≡ self.now.labels }
    {
        &self.parts.labels
    }

    /// The group's text, which is the target's identity within a job, and which is read as the group again.
    pub fn text(&self) -> &str
        ensures text { result.now ≡ target_text self.now }
        ensures utf8 { IsUtf8 (target_text self.now) }
        ensures tokens { tokens (target_text self.now) ≡ tokens_of (target_data self.now) }
        ensures reads { ReadsTokens (target_data self.now) }
        ensures is_final { IsFinal self.now }
    {
        self.parts.text.as_str()
    }

    /// The group as a JSON value.
    pub fn to_value(&self, alloc: Global) -> Result<Value, AllocError>
        ensures form { IfOk result (λ v. view v ≡ target_data self.now) }
        ensures is_final { IsFinal self.now }
    {
        value_of_target(
            alloc,
            self.parts.labels.entries(),
            self.parts.address.as_str(),
        )
    }

    /// Writes the group's text.
    pub fn write(&self, out: &mut Writer) -> Result<(), AllocError>
        ensures tokens { OnOk result (out.new.tokens ≡ out.old.tokens ++ tokens_of (target_data self.now)) }
        ensures before { out.new.before ≡ out.old.before }
        ensures reads { ReadsTokens (target_data self.now) }
        ensures is_final { IsFinal self.now }
    {
        put_target(
            out,
            self.parts.labels.entries(),
            self.parts.address.as_str(),
        )
    }

    /// The text of a label of the group or of `__address__`, and else the empty text.
    pub fn get<N: AsStr + Drop>(&self, name: N) -> &str
        ensures { result.now ≡ target_label self.now (N.text name) }
    {
        if name.as_str() == "__address__" {
            self.parts.address.as_str()
        } else {
            self.parts.labels.get(name)
        }
    }
}

impl Plain for Target {
    fn copy(&self) -> Result<Target, AllocError> {
        Ok(Target {
            parts: Arc::try_clone(&self.parts)?,
        })
    }

    fn same(&self, other: &Target) -> bool {
        self.parts.text.same(&other.parts.text)
    }
}

/// What a label set is finished to.
#[derive(Drop)]
pub enum Finished {
    Target(Target),
    /// There is no `__address__`.
    NoAddress,
}

/// Finishes a label set: `instance` is set where it is missing, and a target keeps the labels of its group.
pub fn finish(alloc: Global, labels: &Labels) -> Result<Finished, AllocError>
    ensures { IfOk result (λ f. f ≡ finished labels.now) }
{
    if labels.get("__address__").is_empty() {
        return Ok(Finished::NoAddress);
    }
    let address = Text::from_str(alloc, labels.get("__address__"))?;
    let mut kept = labels.copy()?;
    kept.add_instance()?;
    kept.keep_group();
    Ok(Finished::Target(Target::of_parts(alloc, kept, address)?))
}
