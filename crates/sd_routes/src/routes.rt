//! The table of paths.
ghost use Rattle.std.specs.Prelude.{◌≡◌, IfOk};
ghost use Rattle.sd_routes.specs.Places.{place_of, route_rows};

use crate::place::{Place, put_rows};
use matchit::{InsertError, Router};
use std::alloc::{AllocError, Global};
use std::marker::Model;

/// The table of paths. It is opened once, and looking a path up takes no memory.
#[derive(Drop)]
pub struct Routes {
    router: Router<Place>,
}

impl Model for Routes {
    ghost use Rattle.std.specs.Prelude.{◌≡◌};
    ghost use Rattle.sd_routes.specs.Places.{route_rows};

    ghost Value = { Unit {0} };

    ghost view = { λ r. tt };

    ghost invariant = { λ r. r.router ≡ route_rows };
}

impl Routes {
    /// The table, with all its routes.
    pub fn open(alloc: Global) -> Result<Routes, AllocError> {
        match router_of(alloc) {
            Ok(router) => Ok(Routes { router }),
            Err(_) => Err(AllocError),
        }
    }

    /// The place that a path names.
    pub(crate) fn place(&self, path: &str) -> Option<Place>
        ensures { result ≡ place_of path.now }
    {
        match self.router.at(path) {
            Ok(found) => Some(*found.value),
            Err(_) => None,
        }
    }
}

fn router_of(alloc: Global) -> Result<Router<Place>, InsertError>
    ensures { IfOk result (λ r. r ≡ route_rows) }
{
    let mut router = Router::new(alloc);
    match put_rows(&mut router) {
        Ok(()) => Ok(router),
        Err(refused) => {
            drop(router);
            Err(refused)
        }
    }
}
