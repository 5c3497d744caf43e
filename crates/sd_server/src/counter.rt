//! What counts a request.
use http::StatusCode;
use sd_routes::Route;
use service_state::ServiceState;
use std::sync::{Arc, Wait};
use std::time::{Clock, Instant};

/// What counts a request of a route by the status of its response.
#[derive(Drop)]
pub(crate) struct Counter<R> {
    pub(crate) rt: R,
    pub(crate) state: Arc<Arc<ServiceState>>,
    pub(crate) route: Route,
    /// When it began, where a clock tells.
    pub(crate) begun: Option<Instant>,
}

impl<R: Wait + Clock> Counter<R> {
    /// The request is answered with this status.
    pub(crate) fn count(&self, status: StatusCode) {
        self.state
            .count_request(&self.rt, self.route, status.as_u16(), self.begun);
    }
}
