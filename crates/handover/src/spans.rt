//! Spans: from which allocation to which a collector held a target.
ghost use Rattle.std.specs.Prelude.{◌≡◌, ◌<◌, ◌≤◌, ◌++◌, ◌∷◌, [], MatchOption, None, OnOk, ℕ, nat_le, true, false, length};
ghost use Rattle.std.specs.List.Sorted.{IsPartitionPoint};
ghost use Rattle.handover.specs.Spans.{holder_at, closed, opened, AreSpans, IsHeldBy, IsRun, IsSince};

use std::alloc::{AllocError, Global};
use std::marker::Model;

/// The last number of a span that is open.
pub(crate) const OPEN: u32 = 4_294_967_295;

/// A collector held a target from one number to another, both included.
#[derive(Clone, Copy)]
pub(crate) struct Span {
    pub(crate) first: u32,
    pub(crate) last: u32,
    pub(crate) collector: u32,
}

/// The spans of one target in order of number.
#[derive(Drop)]
pub(crate) struct Spans {
    spans: Vec<Span>,
}

impl Model for Spans {
    ghost use Rattle.std.specs.Prelude.{◌-◌, vec_len};
    ghost use Rattle.std.specs.Vec.{vec_capacity};
    ghost use Rattle.handover.specs.Spans.{Row};

    ghost Value = { Row };

    ghost view = { λ s. record { spans = s.spans.items; room = vec_capacity s.spans - vec_len s.spans } };
}

impl Spans {
    /// No span. It takes no memory.
    pub(crate) fn new(alloc: Global) -> Spans
        ensures { result.spans ≡ [] }
    {
        Spans {
            spans: Vec::new(alloc),
        }
    }

    /// Makes room for one more.
    pub(crate) fn reserve(&mut self) -> Result<(), AllocError>
        ensures spans { self.new.spans ≡ self.old.spans }
        ensures room { OnOk result (0 < self.new.room) }
        ensures kept { self.old.room ≤ self.new.room }
    {
        self.spans.reserve(1)
    }

    /// Ends the last span with a number, if it is open.
    pub(crate) fn close(&mut self, number: u32)
        ensures spans { self.new.spans ≡ closed number self.old.spans }
        ensures room { self.new.room ≡ self.old.room }
    {
        close_last(self.spans.as_mut_slice(), number);
    }

    /// Adds a span that is open from a number on, in room that is there.
    pub(crate) fn open(&mut self, number: u32, collector: u32)
        requires { 0 < self.old.room }
        ensures { self.new.spans ≡ opened number collector self.old.spans }
    {
        self.spans.push_reserved(Span {
            first: number,
            last: OPEN,
            collector,
        });
    }

    /// The holder of a number.
    pub(crate) fn holder(&self, number: u32) -> Option<u32>
        requires { (current : ℕ) × AreSpans current 0 self.now.spans }
        ensures { result ≡ holder_at self.now.spans number }
    {
        holder_at(self.spans.as_slice(), number)
    }

    /// From which number on the holder of a number has been it without a break.
    pub(crate) fn since(&self, number: u32) -> Option<u32>
        requires { (current : ℕ) × AreSpans current 0 self.now.spans }
        ensures { MatchOption result (holder_at self.now.spans number ≡ None) (λ first. IsSince self.now.spans number first) }
    {
        since_at(self.spans.as_slice(), number)
    }
}

fn close_last(spans: &mut [Span], number: u32)
    ensures { spans.new ≡ closed number spans.old }
{
    if let Some(span) = spans.last_mut() {
        if span.last == OPEN {
            span.last = number;
        }
    }
}

/// How many spans began by a number, found by a binary search.
fn begun(spans: &[Span], number: u32) -> usize
    requires { (current : ℕ) × AreSpans current 0 spans.now }
    ensures parted { IsPartitionPoint (λ (s : Span). nat_le s.first number ≡ true) (λ (s : Span). nat_le s.first number ≡ false) spans.now result }
    ensures bound { result ≤ length spans.now }
{
    spans.partition_point(|span| span.first <= number)
}

/// The span that has a number.
fn span_at(spans: &[Span], number: u32) -> Option<Span>
    requires { (current : ℕ) × AreSpans current 0 spans.now }
    ensures { MatchOption result (holder_at spans.now number ≡ None) (λ span. IsHeldBy spans.now number span) }
{
    let count = begun(spans, number);
    if count == 0 {
        return None;
    }
    let span = spans[count - 1];
    if number <= span.last {
        Some(span)
    } else {
        None
    }
}

/// The holder of a number.
fn holder_at(spans: &[Span], number: u32) -> Option<u32>
    requires { (current : ℕ) × AreSpans current 0 spans.now }
    ensures { result ≡ holder_at spans.now number }
{
    match span_at(spans, number) {
        Some(span) => Some(span.collector),
        None => None,
    }
}

/// From which number on the holder of a number has been it without a break.
fn since_at(spans: &[Span], number: u32) -> Option<u32>
    requires { (current : ℕ) × AreSpans current 0 spans.now }
    ensures { MatchOption result (holder_at spans.now number ≡ None) (λ first. IsSince spans.now number first) }
{
    match span_at(spans, number) {
        Some(span) => Some(run_start(spans, number, span)),
        None => None,
    }
}

/// The first number of a span that has a number, or of the spans before it that its collector has without a gap.
fn run_start(spans: &[Span], number: u32, span: Span) -> u32
    requires spans { (current : ℕ) × AreSpans current 0 spans.now }
    requires held { IsHeldBy spans.now number span }
    ensures { IsRun spans.now number span.collector result }
{
    let mut first = span.first;
    while let Some(before) = span_at(spans, first - 1) {
        if before.collector != span.collector {
            return first;
        }
        first = before.first;
    }
    first
}
