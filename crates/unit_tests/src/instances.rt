//! Documents of instances, and what is copied.
use lists::Plain;
use std::alloc::AllocError;

/// Two items that may use one bin, which takes one of them; the first was there. Its plan is a best one.
pub(crate) const ONE_OF_TWO: &str =
    r#"{"version":1,"bins":[1],"reach":[[0],[0]],"before":[[0,0]],"pairs":[[0,0]],"item_prices":[1,0],"bin_prices":[3]}"#;

/// Two bins for one item each, of which the first drains, and one item that may use both and was in the first.
pub(crate) const FIRST_DRAINS: &str =
    r#"{"version":2,"bins":[1,1],"draining":[0],"reach":[[0,1]],"before":[[0,0]],"pairs":[],"item_prices":[],"bin_prices":[]}"#;

/// The same, where the second drains.
pub(crate) const SECOND_DRAINS: &str =
    r#"{"version":2,"bins":[1,1],"draining":[1],"reach":[[0,1]],"before":[[0,0]],"pairs":[],"item_prices":[],"bin_prices":[]}"#;

/// Whether a value is the same as its copy.
pub(crate) fn is_copied<T: Plain + Drop>(value: &T) -> Result<bool, AllocError> {
    match value.copy() {
        Ok(copy) => Ok(value.same(&copy)),
        Err(error) => Err(error),
    }
}
