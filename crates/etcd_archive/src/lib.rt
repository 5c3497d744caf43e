//! The journals of an allocator in etcd: the epoch that is written, those that begin after it, and the allocator that they lead to.
#![tactic(auto)]

mod archive;
mod device;
mod opening;

pub use archive::EtcdArchive;
pub use device::EtcdDevice;
pub use opening::{Began, NotOpened, open_allocator};
