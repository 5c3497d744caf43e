//! Copies of requests.
use http_get::Get;
use lists::{Plain, Text};
use std::alloc::{AllocError, Global};
use std::test::Fail;

#[test]
fn copies_requests(rt: HostRuntime) -> Result<(), Fail> {
    assert!(rt; is_copied(request(rt.alloc())));
    Ok(())
}

fn request(alloc: Global) -> Result<Get, AllocError> {
    Ok(Get {
        address: Text::from_str(alloc, "h:1")?,
        path: Text::from_str(alloc, "/m")?,
    })
}

fn is_copied(get: Result<Get, AllocError>) -> bool {
    match get {
        Ok(get) => is_same_as_copy(&get),
        Err(_) => false,
    }
}

fn is_same_as_copy(get: &Get) -> bool {
    match get.copy() {
        Ok(copy) => get.same(&copy),
        Err(_) => false,
    }
}
