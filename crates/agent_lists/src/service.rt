//! The service that a connection calls for each request.
use crate::answering::response_to;
use crate::list_store::ListStore;
use bytes::Bytes;
use futures::future::{Ready, ready};
use http::{Request, Response};
use http_body_util::Full;
use hyper::body::Incoming;
use hyper::service::Service;
use std::alloc::{AllocError, Global};
use std::sync::{Arc, Wait};
use std::time::Clock;

/// Answers requests with what a store has.
#[derive(Drop)]
pub(crate) struct ListService<R> {
    pub(crate) rt: R,
    pub(crate) alloc: Global,
    pub(crate) store: Arc<ListStore>,
}

impl<R: Wait + Clock + Drop, I: Drop> Service<Request<Incoming<I>>> for ListService<R> {
    type Response = Response<Full<Bytes>>;

    type Error = AllocError;

    type Future = Ready<Result<Response<Full<Bytes>>, AllocError>>;

    fn call(&self, req: Request<Incoming<I>>) -> Self::Future {
        let (head, _body) = req.into_parts();
        ready(response_to(
            &self.rt,
            self.alloc,
            &self.store,
            head.method.as_str(),
            head.uri.path(),
            &head.headers,
        ))
    }
}
