//! Copies and equality of plain data.
ghost use Rattle.std.specs.Prelude.{◌≡◌, ◌↔◌, IfOk, IsTrue};

use std::alloc::AllocError;

/// Plain data: what has equal copies and a test of equality.
pub trait Plain: Sized {
    /// An equal value, or want of memory.
    fn copy(&self) -> Result<Self, AllocError>
        ensures { IfOk result (λ c. c ≡ self.now) };

    /// Whether the two are equal.
    fn same(&self, other: &Self) -> bool
        ensures { IsTrue result ↔ (self.now ≡ other.now) };
}

impl Plain for bool {
    fn copy(&self) -> Result<bool, AllocError> {
        Ok(*self)
    }

    fn same(&self, other: &bool) -> bool {
        *self == *other
    }
}

impl Plain for u32 {
    fn copy(&self) -> Result<u32, AllocError> {
        Ok(*self)
    }

    fn same(&self, other: &u32) -> bool {
        *self == *other
    }
}

impl Plain for u64 {
    fn copy(&self) -> Result<u64, AllocError> {
        Ok(*self)
    }

    fn same(&self, other: &u64) -> bool {
        *self == *other
    }
}

impl<A: Plain + Drop, B: Plain> Plain for (A, B) {
    fn copy(&self) -> Result<(A, B), AllocError> {
        let first = self.0.copy()?;
        let second = self.1.copy()?;
        Ok((first, second))
    }

    fn same(&self, other: &(A, B)) -> bool {
        self.0.same(&other.0) && self.1.same(&other.1)
    }
}

impl<T: Plain> Plain for Option<T> {
    fn copy(&self) -> Result<Option<T>, AllocError> {
        match self {
            None => Ok(None),
            Some(value) => Ok(Some(value.copy()?)),
        }
    }

    fn same(&self, other: &Option<T>) -> bool {
        match (self, other) {
            (None, None) => true,
            (Some(value), Some(other_value)) => value.same(other_value),
            _ => false,
        }
    }
}
