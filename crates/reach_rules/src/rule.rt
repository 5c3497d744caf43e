//! A rule of a reach, and what it asks of a target.
use label_sets::LabelName;
use lists::{Plain, Text};
use std::alloc::AllocError;

/// What a rule asks of a target.
#[derive(Debug, Drop)]
pub enum ReachTest {
    /// It holds on every target.
    Any,
    /// The target has the label.
    Present(LabelName),
    /// The target's label has this text. A missing label has the empty text.
    Equals(LabelName, Text),
}

/// One rule of a reach.
#[derive(Debug, Drop)]
pub struct ReachRule {
    /// Whether a target on which the test holds is reached.
    pub allow: bool,
    pub test: ReachTest,
}

impl Plain for ReachTest {
    fn copy(&self) -> Result<ReachTest, AllocError> {
        match self {
            ReachTest::Any => Ok(ReachTest::Any),
            ReachTest::Present(label) => Ok(ReachTest::Present(label.copy()?)),
            ReachTest::Equals(label, text) => {
                let label = label.copy()?;
                let text = text.copy()?;
                Ok(ReachTest::Equals(label, text))
            }
        }
    }

    fn same(&self, other: &ReachTest) -> bool {
        match (self, other) {
            (ReachTest::Any, ReachTest::Any) => true,
            (ReachTest::Present(label), ReachTest::Present(other_label)) => {
                label.same(other_label)
            }
            (ReachTest::Equals(label, text), ReachTest::Equals(other_label, other_text)) => {
                label.same(other_label) && text.same(other_text)
            }
            _ => false,
        }
    }
}

impl Plain for ReachRule {
    fn copy(&self) -> Result<ReachRule, AllocError> {
        let test = self.test.copy()?;
        Ok(ReachRule {
            allow: self.allow,
            test,
        })
    }

    fn same(&self, other: &ReachRule) -> bool {
        self.allow == other.allow && self.test.same(&other.test)
    }
}
