//! Target groups are copied.
use lists::{List, Plain};
use sd_documents::{Group, read_groups};
use std::alloc::{AllocError, Global};
use std::test::Fail;

const TWO_GROUPS: &[u8] = br#"[{"targets":["h:1"],"labels":{"a":"b"}},{}]"#;

#[test]
fn copies_groups(rt: HostRuntime) -> Result<(), Fail> {
    assert!(rt; copies(rt.alloc())?);
    Ok(())
}

fn copies(alloc: Global) -> Result<bool, AllocError> {
    match read_groups(alloc, TWO_GROUPS) {
        Ok(groups) => copies_two(&groups),
        Err(_) => Err(AllocError),
    }
}

fn copies_two(groups: &List<Group>) -> Result<bool, AllocError> {
    match groups.copy() {
        Ok(copy) => Ok(groups.same(&copy) && copy.len() == 2),
        Err(error) => Err(error),
    }
}
