//! A text exposition.
ghost use Rattle.std.specs.Prelude.{◌≡◌, ◌++◌, IfOk, IfSome, OnOk, [], codes, string_bytes};
ghost use Rattle.std.specs.Fmt.{decimal};
ghost use Rattle.std.specs.List.{flat_map};
ghost use Rattle.exposition.specs.Lines.{before_text, bound_digits, bucket_line, bucket_text, family_text, fine_digits, fraction_digits, histogram_text, label_text, labelled_text, labels_text, plain_text, seconds_digits, seconds_text, totals_text, twice_labelled_text};

use crate::durations::{Bucket, Durations};
use crate::escaping::push_escaped;
use crate::kind::Kind;
use std::alloc::{AllocError, Global};
use std::marker::Model;

/// A text exposition. Contracts see its bytes. Names of families and labels, and help texts, are the caller's own: a help text has no
/// line feed and no backslash.
#[derive(Drop)]
pub struct Exposition {
    alloc: Global,
    bytes: Vec<u8>,
}

impl Model for Exposition {
    ghost use Rattle.std.specs.Prelude.{List, ℕ};

    ghost Value = { List ℕ };

    ghost view = { λ e. e.bytes.items };
}

impl Exposition {
    /// An empty one.
    pub fn new(alloc: Global) -> Exposition
        ensures { result ≡ [] }
    {
        Exposition {
            alloc,
            bytes: Vec::new(alloc),
        }
    }

    /// Begins a family of samples.
    pub fn family(&mut self, name: &str, kind: Kind, help: &str) -> Result<(), AllocError>
        ensures { OnOk result (self.new ≡ self.old ++ family_text name.now kind help.now) }
    {
        self.put("# HELP ")?;
        self.put(name)?;
        self.put(" ")?;
        self.put(help)?;
        self.put("\n# TYPE ")?;
        self.put(name)?;
        self.put(" ")?;
        self.put(kind.word())?;
        self.put("\n")
    }

    /// A sample without labels.
    pub fn sample(&mut self, name: &str, value: u128) -> Result<(), AllocError>
        ensures { OnOk result (self.new ≡ self.old ++ plain_text name.now value) }
    {
        self.put(name)?;
        self.put(" ")?;
        self.put_number(value)?;
        self.put("\n")
    }

    /// A sample without labels: so many milliseconds, in seconds.
    pub fn seconds(&mut self, name: &str, milliseconds: u64) -> Result<(), AllocError>
        ensures { OnOk result (self.new ≡ self.old ++ seconds_text name.now milliseconds) }
    {
        self.put(name)?;
        self.put(" ")?;
        self.put_seconds(milliseconds)?;
        self.put("\n")
    }

    /// A sample with one label, whose value may be any text.
    pub fn labelled_sample(
        &mut self,
        name: &str,
        label: &str,
        said: &str,
        value: u128,
    ) -> Result<(), AllocError>
        ensures { OnOk result (self.new ≡ self.old ++ labelled_text name.now label.now said.now value) }
    {
        self.put(name)?;
        self.put("{")?;
        self.put_label(label, said)?;
        self.put("} ")?;
        self.put_number(value)?;
        self.put("\n")
    }

    /// A sample with two labels, whose values may be any texts.
    pub fn twice_labelled_sample(
        &mut self,
        name: &str,
        label: &str,
        said: &str,
        other_label: &str,
        other_said: &str,
        value: u128,
    ) -> Result<(), AllocError>
        ensures { OnOk result (self.new ≡ self.old ++ twice_labelled_text name.now (label_text label.now said.now) (label_text other_label.now other_said.now) value) }
    {
        self.put(name)?;
        self.put("{")?;
        self.put_label(label, said)?;
        self.put(",")?;
        self.put_label(other_label, other_said)?;
        self.put("} ")?;
        self.put_number(value)?;
        self.put("\n")
    }

    /// The samples of a histogram without labels: durations, in seconds.
    pub fn histogram(&mut self, name: &str, durations: &Durations) -> Result<(), AllocError>
        ensures { OnOk result (self.new ≡ self.old ++ histogram_text name.now [] [] durations.now) }
    {
        self.put_histogram(name, b"", b"", durations)
    }

    /// The samples of a histogram with one label, whose value may be any text.
    pub fn labelled_histogram(
        &mut self,
        name: &str,
        label: &str,
        said: &str,
        durations: &Durations,
    ) -> Result<(), AllocError>
        ensures { OnOk result (self.new ≡ self.old ++ histogram_text name.now (before_text label.now said.now) (labels_text label.now said.now) durations.now) }
    {
        let before = before_of(self.alloc, label, said)?;
        let labels = labels_of(self.alloc, label, said)?;
        self.put_histogram(
            name,
            before.bytes.as_slice(),
            labels.bytes.as_slice(),
            durations,
        )
    }

    /// The text, if it is UTF-8, as it is where all that was put in was.
    pub fn into_string(self) -> Option<String>
        ensures { IfSome result (λ text. string_bytes text ≡ self) }
    {
        String::from_utf8(self.bytes).ok()
    }

    fn put(&mut self, text: &str) -> Result<(), AllocError>
        ensures { OnOk result (self.new ≡ self.old ++ text.now) }
    {
        self.put_bytes(text.as_bytes())
    }

    fn put_bytes(&mut self, bytes: &[u8]) -> Result<(), AllocError>
        ensures { OnOk result (self.new ≡ self.old ++ bytes.now) }
    {
        self.bytes.extend_from_slice(bytes)
    }

    fn put_histogram(
        &mut self,
        name: &str,
        before: &[u8],
        labels: &[u8],
        durations: &Durations,
    ) -> Result<(), AllocError>
        ensures { OnOk result (self.new ≡ self.old ++ histogram_text name.now before.now labels.now durations.now) }
    {
        self.put_buckets(name, before, &durations.buckets)?;
        self.put_last_bucket(name, before, durations.count)?;
        self.put_totals(name, labels, durations.sum, durations.count)
    }

    fn put_buckets(
        &mut self,
        name: &str,
        before: &[u8],
        buckets: &[Bucket],
    ) -> Result<(), AllocError>
        ensures { OnOk result (self.new ≡ self.old ++ flat_map (bucket_line name.now before.now) buckets.now) }
    {
        for bucket in buckets {
            self.put_bucket(name, before, bucket)?;
        }
        Ok(())
    }

    fn put_bucket(&mut self, name: &str, before: &[u8], bucket: &Bucket) -> Result<(), AllocError>
        ensures { OnOk result (self.new ≡ self.old ++ bucket_line name.now before.now bucket.now) }
    {
        self.put(name)?;
        self.put("_bucket{")?;
        self.put_bytes(before)?;
        self.put("le=\"")?;
        self.put_bound(bucket.bound)?;
        self.put("\"} ")?;
        self.put_number(u128::from(bucket.count))?;
        self.put("\n")
    }

    /// How many there are whatever they are.
    fn put_last_bucket(&mut self, name: &str, before: &[u8], count: u64) -> Result<(), AllocError>
        ensures { OnOk result (self.new ≡ self.old ++ bucket_text name.now before.now (codes "+Inf") count) }
    {
        self.put(name)?;
        self.put("_bucket{")?;
        self.put_bytes(before)?;
        self.put("le=\"")?;
        self.put("+Inf")?;
        self.put("\"} ")?;
        self.put_number(u128::from(count))?;
        self.put("\n")
    }

    fn put_totals(
        &mut self,
        name: &str,
        labels: &[u8],
        sum: u64,
        count: u64,
    ) -> Result<(), AllocError>
        ensures { OnOk result (self.new ≡ self.old ++ totals_text name.now labels.now sum count) }
    {
        self.put(name)?;
        self.put("_sum")?;
        self.put_bytes(labels)?;
        self.put(" ")?;
        self.put_fine(sum)?;
        self.put("\n")?;
        self.put(name)?;
        self.put("_count")?;
        self.put_bytes(labels)?;
        self.put(" ")?;
        self.put_number(u128::from(count))?;
        self.put("\n")
    }

    fn put_bound(&mut self, milliseconds: u64) -> Result<(), AllocError>
        ensures { OnOk result (self.new ≡ self.old ++ bound_digits milliseconds) }
    {
        self.put_number(u128::from(milliseconds / 1_000))?;
        self.put_fraction(milliseconds)
    }

    fn put_fraction(&mut self, milliseconds: u64) -> Result<(), AllocError>
        ensures { OnOk result (self.new ≡ self.old ++ fraction_digits milliseconds) }
    {
        if milliseconds % 1_000 == 0 {
            return Ok(());
        }
        self.put(".")?;
        self.put_number(u128::from(milliseconds / 100 % 10))?;
        if milliseconds % 100 == 0 {
            return Ok(());
        }
        self.put_number(u128::from(milliseconds / 10 % 10))?;
        if milliseconds % 10 == 0 {
            return Ok(());
        }
        self.put_number(u128::from(milliseconds % 10))
    }

    fn put_fine(&mut self, microseconds: u64) -> Result<(), AllocError>
        ensures { OnOk result (self.new ≡ self.old ++ fine_digits microseconds) }
    {
        self.put_seconds(microseconds / 1_000)?;
        self.put_number(u128::from(microseconds / 100 % 10))?;
        self.put_number(u128::from(microseconds / 10 % 10))?;
        self.put_number(u128::from(microseconds % 10))
    }

    fn put_label(&mut self, label: &str, said: &str) -> Result<(), AllocError>
        ensures { OnOk result (self.new ≡ self.old ++ label_text label.now said.now) }
    {
        self.put(label)?;
        self.put("=\"")?;
        push_escaped(&mut self.bytes, said.as_bytes())?;
        self.put("\"")
    }

    fn put_seconds(&mut self, milliseconds: u64) -> Result<(), AllocError>
        ensures { OnOk result (self.new ≡ self.old ++ seconds_digits milliseconds) }
    {
        self.put_number(u128::from(milliseconds / 1_000))?;
        self.put(".")?;
        self.put_number(u128::from(milliseconds / 100 % 10))?;
        self.put_number(u128::from(milliseconds / 10 % 10))?;
        self.put_number(u128::from(milliseconds % 10))
    }

    fn put_number(&mut self, number: u128) -> Result<(), AllocError>
        ensures { OnOk result (self.new ≡ self.old ++ decimal number) }
    {
        let digits = format!(in self.alloc; "{number}")?;
        self.put(digits.as_str())
    }
}

/// A label before another one.
fn before_of(alloc: Global, label: &str, said: &str) -> Result<Exposition, AllocError>
    ensures { IfOk result (λ e. e ≡ before_text label.now said.now) }
{
    let mut before = Exposition::new(alloc);
    before.put_label(label, said)?;
    before.put(",")?;
    Ok(before)
}

/// The labels of a sample with one label.
fn labels_of(alloc: Global, label: &str, said: &str) -> Result<Exposition, AllocError>
    ensures { IfOk result (λ e. e ≡ labels_text label.now said.now) }
{
    let mut labels = Exposition::new(alloc);
    labels.put("{")?;
    labels.put_label(label, said)?;
    labels.put("}")?;
    Ok(labels)
}
