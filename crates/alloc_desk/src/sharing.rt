//! A desk that several threads have.
use crate::desk::Desk;
use crate::name::DeskName;
use crate::pass::Pass;
use std::alloc::{AllocError, Global};
use std::sync::ledger::Ledger;
use std::sync::{Arc, Mutex};

/// A desk and a pass of it, as the threads of a server share them.
pub fn shared_desk<L: Ledger, B: Ledger, N: DeskName>(
    alloc: Global,
    desk: Desk<L, B, N>,
    pass: Pass<L, B, N>,
) -> Result<(Arc<Desk<L, B, N>>, Arc<Mutex<Pass<L, B, N>>>), AllocError> {
    match shared(alloc, desk) {
        Ok(desk) => match shared(alloc, Mutex::new(pass)) {
            Ok(pass) => Ok((desk, pass)),
            Err(error) => {
                drop(desk);
                Err(error)
            }
        },
        Err(error) => {
            drop(pass);
            Err(error)
        }
    }
}

fn shared<T: Drop>(alloc: Global, value: T) -> Result<Arc<T>, AllocError> {
    Ok(Arc::new(alloc, value)?)
}
