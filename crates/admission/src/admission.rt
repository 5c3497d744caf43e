//! Which requests are let in.
ghost use Rattle.std.specs.Prelude.{◌≡◌, None, option_copied};
ghost use Rattle.admission.specs.Admission.{refusal_of};
ghost use Rattle.admission.specs.Bodies.{body_refusal_of};

use crate::authorizing::{is_allowed, shown_token};
use crate::bodies::{expects_other, is_coded_otherwise, is_json, is_too_long};
use crate::key::Key;
use crate::sites::{are_own_hosts, is_foreign};
use http_header::HeaderMap;
use lists::{List, Text};
use sd_routes::{Ask, RequestError};

/// Who may ask for what, and under which names of the host.
#[derive(Drop)]
pub struct Admission {
    /// The names of the host that may be asked, in small letters and without a port. All where there is no list.
    pub hosts: Option<List<Text>>,
    /// The tokens of those who may change who collects, read the configuration again and stop the service. Nobody shows one where there is
    /// no list.
    pub admin: Option<List<Key>>,
    /// The tokens of those who may take lists and report. An admin's serves too. Nobody shows one where there is no list.
    pub collectors: Option<List<Key>>,
}

impl Admission {
    /// All may ask for all under every name of the host.
    pub fn open() -> Admission
        ensures { result ≡ record { hosts = None; admin = None; collectors = None } }
    {
        Admission {
            hosts: None,
            admin: None,
            collectors: None,
        }
    }

    /// Why a request is refused by its head, whatever its body. Where several refusals hold, the first of these is given: a foreign host, a
    /// change by a page of another site, no token, a transfer coding, an expectation, a length, a media type. A request that has no place
    /// is asked for no token.
    pub fn refusal(&self, ask: Option<&Ask>, fields: &HeaderMap) -> Option<RequestError>
        ensures { result ≡ refusal_of self.now (option_copied ask.entry) fields.now }
    {
        if !are_own_hosts(&self.hosts, fields) {
            return Some(RequestError::Host);
        }
        if is_foreign(ask, fields) {
            return Some(RequestError::Origin);
        }
        if !is_allowed(&self.admin, &self.collectors, ask, shown_token(fields)) {
            return Some(RequestError::Token);
        }
        body_refusal(fields)
    }
}

/// Why the body that a head announces is not read.
fn body_refusal(fields: &HeaderMap) -> Option<RequestError>
    ensures { result ≡ body_refusal_of fields.now }
{
    if is_coded_otherwise(fields) {
        return Some(RequestError::TransferCoding);
    }
    if expects_other(fields) {
        return Some(RequestError::Expectation);
    }
    if is_too_long(fields) {
        return Some(RequestError::TooLong);
    }
    if !is_json(fields) {
        return Some(RequestError::MediaType);
    }
    None
}
