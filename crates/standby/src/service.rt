//! The service that a connection calls for each request.
use crate::answering::response_to;
use crate::standing::Standing;
use bytes::Bytes;
use futures::future::{Ready, ready};
use http::{Request, Response};
use http_body_util::Full;
use hyper::body::Incoming;
use hyper::service::Service;
use sd_routes::Routes;
use std::alloc::{AllocError, Global};
use std::sync::{Arc, Wait};
use std::time::Clock;

/// Answers requests while an instance stands by.
#[derive(Drop)]
pub(crate) struct StandingService<R> {
    pub(crate) rt: R,
    pub(crate) alloc: Global,
    pub(crate) standing: Arc<Standing>,
    /// The table of paths.
    pub(crate) routes: Arc<Routes>,
}

impl<R: Wait + Clock + Drop, I: Drop> Service<Request<Incoming<I>>> for StandingService<R> {
    type Response = Response<Full<Bytes>>;

    type Error = AllocError;

    type Future = Ready<Result<Response<Full<Bytes>>, AllocError>>;

    fn call(&self, req: Request<Incoming<I>>) -> Self::Future {
        let (head, _body) = req.into_parts();
        ready(response_to(&self.rt, self.alloc, &self.standing, &self.routes, &head))
    }
}
