//! Numbers of 64 bits, which are texts.
ghost use Rattle.std.specs.Prelude.{◌≡◌};
ghost use Rattle.serde_json.specs.View.{view};
ghost use Rattle.etcd_answers.specs.Numbers.{long_in, long_said};

use serde_json::Value;

/// The number of a member.
pub(crate) fn long_in(value: &Value, name: &str) -> Option<u64>
    ensures { result ≡ long_in name.now (view value.now) }
{
    long_of(value.get(name)?.as_str()?)
}

/// The number that a text says.
pub(crate) fn long_of(text: &str) -> Option<u64>
    ensures { result ≡ long_said text.now }
{
    text.parse::<u64>().ok()
}
