//! Tokens, and whose they are.
use lists::Text;

/// A token, and the collector that alone may show it, or all who know it.
#[derive(Drop)]
pub struct Key {
    pub collector: Option<Text>,
    pub token: Text,
}
