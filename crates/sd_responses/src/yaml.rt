//! YAML for who asks for it: a JSON text is a YAML text, so only the media type is another one.
ghost use Rattle.std.specs.Prelude.{◌≡◌, IfOk, true};
ghost use Rattle.http.specs.Response.{head_of, body_of};
ghost use Rattle.sd_responses.specs.Yaml.{is_page as is_page_of, told_as};

use bytes::Bytes;
use http::Response;
use http::header::{CONTENT_TYPE, HeaderValue};
use http_body_util::Full;
use sd_routes::Said;
use std::alloc::AllocError;

/// Whether what is said is a page or a list in JSON.
pub(crate) fn is_page(said: &Said) -> bool
    ensures { result ≡ is_page_of said.now }
{
    matches!(said, Said::Page(_) | Said::List { .. } | Said::Nothing)
}

/// The same bytes as YAML.
pub(crate) fn as_yaml(response: Response<Full<Bytes>>) -> Result<Response<Full<Bytes>>, AllocError>
    ensures status { IfOk result (λ r. (head_of r).status ≡ (head_of response).status) }
    ensures headers { IfOk result (λ r. (head_of r).headers ≡ told_as true (head_of response).headers) }
    ensures body { IfOk result (λ r. (body_of r).buf ≡ (body_of response).buf) }
{
    let (mut head, body) = response.into_parts();
    let yaml = HeaderValue::from_static("application/yaml");
    if head.headers.insert(CONTENT_TYPE, yaml).is_err() {
        return Err(AllocError);
    }
    Ok(Response::from_parts(head, body))
}
