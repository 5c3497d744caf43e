//! Kinds of families.
ghost use Rattle.std.specs.Prelude.{◌≡◌};
ghost use Rattle.exposition.specs.Lines.{kind_text};

/// What the values of a family are.
#[derive(Clone, Copy, PartialEq, Eq)]
pub enum Kind {
    /// They rise, or begin again at 0.
    Counter,
    /// They may rise and fall.
    Gauge,
    /// They count observations by how large these were, beside their sum.
    Histogram,
}

impl Kind {
    /// The word of a `TYPE` line.
    pub(crate) fn word(self) -> &'static str
        ensures { result.now ≡ kind_text self }
    {
        match self {
            Kind::Counter => "counter",
            Kind::Gauge => "gauge",
            Kind::Histogram => "histogram",
        }
    }
}
