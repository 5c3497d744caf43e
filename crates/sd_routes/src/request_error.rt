//! Why a request is refused without an answer of the allocator, and how that is told.
ghost use Rattle.std.specs.Prelude.{◌≡◌};
ghost use Rattle.sd_routes.specs.Errors.{status_of, name_of};

use crate::place::Place;
use http::StatusCode;
use std::alloc::AllocError;

/// Why a request is refused without an answer of the allocator.
#[derive(Clone, Copy, Debug, PartialEq, Eq)]
pub enum RequestError {
    /// No place has the path.
    NoRoute,
    /// The place of the path has not the method.
    Method(Place),
    /// The host that is asked is none of the service's names.
    Host,
    /// The request comes from a page of another site, and asks for more than to be shown something.
    Origin,
    /// No token is shown that may ask for this.
    Token,
    /// The body is not told to be JSON.
    MediaType,
    /// The body is in a transfer coding other than `chunked`.
    TransferCoding,
    /// Something other than `100-continue` is expected.
    Expectation,
    /// A segment of the path, or the body, is not of the documented shape.
    Shape,
    /// A collector's name is empty or longer than 128 bytes.
    BadName,
    /// A reach has more than 32 rules.
    TooManyRules,
    /// A report is of another epoch.
    OtherEpoch,
    /// The books have no such round.
    UnknownRound,
    /// The body has more than 1,048,576 bytes.
    TooLong,
    /// The journal takes no further event.
    JournalFull,
    /// What was asked may have been done, and is not on the device that keeps the journal.
    NotKept,
    /// A growth was refused.
    Memory,
}

impl RequestError {
    /// The status code (RFC 9110, section 15).
    pub fn status(self) -> StatusCode
        ensures { result ≡ status_of self }
    {
        match self {
            RequestError::NoRoute | RequestError::UnknownRound => StatusCode::NOT_FOUND,
            RequestError::Method(_) => StatusCode::METHOD_NOT_ALLOWED,
            RequestError::Host | RequestError::Origin => StatusCode::FORBIDDEN,
            RequestError::Token => StatusCode::UNAUTHORIZED,
            RequestError::MediaType => StatusCode::UNSUPPORTED_MEDIA_TYPE,
            RequestError::TransferCoding => StatusCode::NOT_IMPLEMENTED,
            RequestError::Expectation => StatusCode::EXPECTATION_FAILED,
            RequestError::Shape | RequestError::BadName | RequestError::TooManyRules => {
                StatusCode::BAD_REQUEST
            }
            RequestError::OtherEpoch => StatusCode::CONFLICT,
            RequestError::TooLong => StatusCode::PAYLOAD_TOO_LARGE,
            RequestError::JournalFull => StatusCode::INSUFFICIENT_STORAGE,
            RequestError::NotKept | RequestError::Memory => StatusCode::SERVICE_UNAVAILABLE,
        }
    }

    /// The name by which the answer's body tells it.
    pub fn name(self) -> &'static str
        ensures { result.now ≡ name_of self }
    {
        match self {
            RequestError::NoRoute => "NoRoute",
            RequestError::Method(_) => "Method",
            RequestError::Host => "Host",
            RequestError::Origin => "Origin",
            RequestError::Token => "Token",
            RequestError::MediaType => "MediaType",
            RequestError::TransferCoding => "TransferCoding",
            RequestError::Expectation => "Expectation",
            RequestError::Shape => "Shape",
            RequestError::BadName => "BadName",
            RequestError::TooManyRules => "TooManyRules",
            RequestError::OtherEpoch => "OtherEpoch",
            RequestError::UnknownRound => "UnknownRound",
            RequestError::TooLong => "TooLong",
            RequestError::JournalFull => "JournalFull",
            RequestError::NotKept => "NotKept",
            RequestError::Memory => "Memory",
        }
    }
}

impl From<AllocError> for RequestError {
    ghost use Rattle.std.specs.Prelude.{◌≡◌};
    ghost use Rattle.sd_routes.specs.declared.request_error.RequestError.TheVariants.{Memory};

    ghost from_gives = { λ _ e. e ≡ Memory };

    fn from(_error: AllocError) -> RequestError {
        RequestError::Memory
    }
}
