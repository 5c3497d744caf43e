//! The version of an instance, which decides what its pairs are worth.
ghost use Rattle.std.specs.Prelude.{◌≡◌, ◌≤◌};
ghost use Rattle.price_certificate.specs.Problem.{cover_worth, steady_worth};

use crate::shape::MOST_ITEMS;

/// The version of an instance and of its document.
#[derive(Clone, Copy, Debug, PartialEq, Eq)]
pub enum Version {
    /// No bin drains. A plan covers most items, and then keeps most of them in place.
    One,
    /// Some bins may drain. A plan covers most items, then leaves fewest at bins that drain, and then keeps most of them in
    /// place.
    Two,
}

impl Version {
    /// What covering one of so many items is worth.
    pub(crate) fn cover_worth(self, items: usize) -> u32
        requires { items ≤ MOST_ITEMS }
        ensures worth { result ≡ cover_worth self items }
        ensures most { result ≤ 268468225 }
    {
        let more = items as u32 + 1;
        match self {
            Version::One => more,
            Version::Two => more * more,
        }
    }

    /// What a place at a bin that does not drain is worth besides.
    pub(crate) fn steady_worth(self, items: usize) -> u32
        requires { items ≤ MOST_ITEMS }
        ensures worth { result ≡ steady_worth self items }
        ensures most { result ≤ 16385 }
    {
        match self {
            Version::One => 0,
            Version::Two => items as u32 + 1,
        }
    }
}
