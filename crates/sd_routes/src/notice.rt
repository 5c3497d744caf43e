//! What the service says of itself in a line of plain text.
ghost use Rattle.std.specs.Prelude.{◌≡◌};
ghost use Rattle.sd_routes.specs.Notices.{status_noticed, text_noticed};

use http::StatusCode;

/// What the service says of itself in a line of plain text, after Prometheus's management API.
#[derive(Clone, Copy, PartialEq, Eq)]
pub enum Notice {
    /// It answers.
    Healthy,
    /// It cannot keep what is submitted.
    Broken,
    /// It answers for all sources.
    Ready,
    /// It does not answer for all sources yet, or does not answer for what is submitted.
    NotReady,
    /// It leads, and does not stand by.
    Leading,
    /// It ends.
    Quitting,
    /// It does not end for a request, and does not read its configuration again for one.
    NoLifecycle,
}

impl Notice {
    /// The status code (RFC 9110, section 15).
    pub fn status(self) -> StatusCode
        ensures { result ≡ status_noticed self }
    {
        match self {
            Notice::Healthy | Notice::Ready => StatusCode::OK,
            Notice::Leading | Notice::Quitting => StatusCode::OK,
            Notice::Broken | Notice::NotReady => StatusCode::SERVICE_UNAVAILABLE,
            Notice::NoLifecycle => StatusCode::FORBIDDEN,
        }
    }

    /// The line, with its line feed.
    pub fn text(self) -> &'static str
        ensures { result.now ≡ text_noticed self }
    {
        match self {
            Notice::Healthy => "allocd is healthy.\n",
            Notice::Broken => "allocd cannot keep what is submitted.\n",
            Notice::Ready => "allocd is ready.\n",
            Notice::NotReady => "allocd is not ready.\n",
            Notice::Leading => "allocd leads.\n",
            Notice::Quitting => "allocd ends. Goodbye!\n",
            Notice::NoLifecycle => "The lifecycle API is not enabled.\n",
        }
    }
}
