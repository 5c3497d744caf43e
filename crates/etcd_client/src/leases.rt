//! Leases.
use etcd_answers::{Granted, Lease, read_granted, read_lease};
use etcd_requests::{GRANT_PATH, KEEP_PATH, REVOKE_PATH, grant_body, lease_body};
use etcd_turns::{Etcd, Reply};
use std::alloc::{AllocError, Global};

/// Asks once for a lease of so many seconds. None where it is not known whether there is one: then it ends by itself.
pub fn grant<E: Etcd>(
    alloc: Global,
    etcd: &mut E,
    seconds: u32,
) -> Result<Option<Granted>, AllocError> {
    let body = grant_body(alloc, seconds)?;
    match etcd.post(GRANT_PATH, body.as_str().as_bytes()) {
        Some(Reply { status, body }) => read_granted(alloc, status, body.as_slice()),
        None => Ok(None),
    }
}

/// Keeps a lease alive once.
pub fn keep_once<E: Etcd>(alloc: Global, etcd: &mut E, lease: u64) -> Result<Lease, AllocError> {
    let body = lease_body(alloc, lease)?;
    match etcd.post(KEEP_PATH, body.as_str().as_bytes()) {
        Some(Reply { status, body }) => read_lease(alloc, lease, status, body.as_slice()),
        None => Ok(Lease::Unknown),
    }
}

/// Gives a lease up, so that another may lead at once. Where it is not heard, the lease ends by itself.
pub fn revoke<E: Etcd>(alloc: Global, etcd: &mut E, lease: u64) -> Result<(), AllocError> {
    let body = lease_body(alloc, lease)?;
    drop(etcd.post(REVOKE_PATH, body.as_str().as_bytes()));
    Ok(())
}
