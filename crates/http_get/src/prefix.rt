//! Texts that begin with another.
ghost use Rattle.std.specs.Prelude.{◌≡◌, option_map};
ghost use Rattle.http_get.specs.Prefixes.{behind as rest_behind};

/// What stands behind the prefix, where the text begins with it.
pub(crate) fn behind<'a>(prefix: &str, text: &'a str) -> Option<&'a str>
    ensures { option_map (λ s. s.now) result ≡ rest_behind prefix.now text.now }
{
    text.strip_prefix(prefix)
}
