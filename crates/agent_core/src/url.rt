//! Where a target is scraped.
ghost use Rattle.std.specs.Prelude.{◌≡◌};
ghost use Rattle.agent_core.specs.Sharing.{has_parameter, has_parameters, is_url};

use lists::{List, Text};

/// A parameter of a URL's query, by the name of its label: `__param_` and its own name behind that.
#[derive(Drop)]
pub struct Parameter {
    pub name: Text,
    pub value: Text,
}

/// A URL as it is meant, and not as it is escaped: what stands before its query, and the parameters of that, in their order.
#[derive(Drop)]
pub struct Url {
    pub base: Text,
    pub parameters: List<Parameter>,
}

/// Whether a target's URL is the one that is scraped. That may have parameters of its own, which the job has in Prometheus.
pub(crate) fn is_url(url: &Url, scraped: &Url) -> bool
    ensures { result ≡ is_url url.now scraped.now }
{
    url.base.as_str() == scraped.base.as_str()
        && has_parameters(scraped.parameters.as_slice(), url.parameters.as_slice())
}

fn has_parameters(scraped: &[Parameter], wanted: &[Parameter]) -> bool
    ensures { result ≡ has_parameters scraped.now wanted.now }
{
    wanted
        .iter()
        .all(|parameter| has_parameter(scraped, parameter))
}

/// Whether the first value of a parameter is the wanted one.
fn has_parameter(scraped: &[Parameter], wanted: &Parameter) -> bool
    ensures { result ≡ has_parameter scraped.now wanted.now }
{
    for parameter in scraped {
        if parameter.name.as_str() == wanted.name.as_str() {
            return parameter.value.as_str() == wanted.value.as_str();
        }
    }
    false
}
