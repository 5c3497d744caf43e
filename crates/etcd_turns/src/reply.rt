//! What etcd replies.
use lists::List;

/// A status and a body.
#[derive(Drop)]
pub struct Reply {
    pub status: u16,
    pub body: List<u8>,
}
