//! Patterns, compiled in the form that matches whole texts alone.
ghost use Rattle.std.specs.Prelude.{◌≡◌, ◌≢◌, true, false, is_some, List, ℕ, Bool, Err, IfOk, IfErr, string_bytes};
ghost use Rattle.regex.specs.Strings.{regex_pattern, regex_names};
ghost use Rattle.relabel.specs.Patterns.{pattern_in, whole_form, is_pattern, names_in, FindsAs};
ghost use Rattle.relabel.specs.Compiling.{IsFormOf, IsFailure, IsTooBig, AreTaken, any_text};

use regex::Regex;
use regex_syntax::{Config, ErrorKind, parse};
use std::alloc::{AllocError, Global};

/// Why a pattern was not compiled.
#[derive(Clone, Copy, PartialEq, Eq)]
pub enum PatternError {
    /// The grammar does not read it.
    NoPattern,
    /// It is a pattern, and its tables would be too big.
    TooBig,
    Memory,
}

impl From<AllocError> for PatternError {
    ghost use Rattle.relabel.specs.declared.pattern.PatternError.TheVariants.{Memory};

    ghost from_gives = { λ _ e. e ≡ Memory };

    fn from(_refused: AllocError) -> PatternError {
        PatternError::Memory
    }
}

impl From<regex_syntax::Error> for PatternError {
    ghost use Rattle.regex_syntax.specs.declared.error.ErrorKind.TheVariants.{OutOfMemory};
    ghost use Rattle.relabel.specs.declared.pattern.PatternError.TheVariants.{NoPattern, TooBig};

    ghost from_gives = { λ e p. (p ≡ NoPattern → e.kind ≢ OutOfMemory) × (p ≢ TooBig) };

    fn from(refused: regex_syntax::Error) -> PatternError {
        match refused.kind {
            ErrorKind::OutOfMemory => PatternError::Memory,
            _ => PatternError::NoPattern,
        }
    }
}

/// What compiles the text of a pattern. Contracts see of which texts it may say that they are too big, and which texts
/// it may take.
pub trait Compiler: Sized {
    ghost too_big: { List ℕ → Bool };

    ghost taken: { List ℕ → Bool };

    fn compile(&self, alloc: Global, source: &str) -> Result<Regex, PatternError>
        ensures read { IfOk result (IsFormOf source.now) }
        ensures refused { IfErr result (λ e. IsFailure e (is_some (pattern_in source.now))) }
        ensures big { result ≡ Err PatternError.TooBig → too_big source.now ≡ true }
        ensures takes { IfOk result (λ _. taken source.now ≡ true) };
}

/// The crate `regex`. Nothing is known of the texts that it says are too big.
pub struct RegexCrate {}

impl Compiler for RegexCrate {
    ghost too_big = { any_text };

    ghost taken = { any_text };

    fn compile(&self, alloc: Global, source: &str) -> Result<Regex, PatternError> {
        regex_of(alloc, source)
    }
}

/// The pattern between `^(?:` and `)$`, where it reads alone too. Both are read before either is compiled.
pub(crate) fn compiled_by<C: Compiler>(
    compiler: &C,
    alloc: Global,
    pattern: &str,
) -> Result<Regex, PatternError>
    ensures form { IfOk result (λ r. FindsAs pattern.now (regex_pattern r)) }
    ensures names { IfOk result (λ r. regex_names r ≡ names_in pattern.now) }
    ensures read { IfOk result (λ r. is_pattern pattern.now ≡ true) }
    ensures taken { IfOk result (λ _. AreTaken C.taken pattern.now) }
    ensures refused { IfErr result (λ e. IsFailure e (is_pattern pattern.now)) }
    ensures asked { result ≡ Err PatternError.TooBig → IsTooBig C.too_big pattern.now }
{
    let form = whole_form_of(alloc, pattern)?;
    read(alloc, pattern)?;
    read(alloc, form.as_str())?;
    let _ = compiler.compile(alloc, pattern)?;
    compiler.compile(alloc, form.as_str())
}

fn whole_form_of(alloc: Global, pattern: &str) -> Result<String, AllocError>
    ensures { IfOk result (λ s. string_bytes s ≡ whole_form pattern.now) }
{
    let mut form = String::from_str(alloc, "^(?:")?;
    form.push_str(pattern)?;
    form.push_str(")$")?;
    Ok(form)
}

/// Whether the grammar reads the text.
fn read(alloc: Global, source: &str) -> Result<(), PatternError>
    ensures some { IfOk result (λ _. is_some (pattern_in source.now) ≡ true) }
    ensures none { result ≡ Err PatternError.NoPattern → is_some (pattern_in source.now) ≡ false }
    ensures small { result ≢ Err PatternError.TooBig }
{
    let _ = parse(alloc, source, &Config::default())?;
    Ok(())
}

/// The regex of a text.
fn regex_of(alloc: Global, source: &str) -> Result<Regex, PatternError>
    ensures read { IfOk result (IsFormOf source.now) }
    ensures refused { IfErr result (λ e. IsFailure e (is_some (pattern_in source.now))) }
{
    match Regex::new(alloc, source) {
        Ok(regex) => Ok(regex),
        Err(regex::Error::Syntax(_)) => Err(PatternError::NoPattern),
        Err(regex::Error::CompiledTooBig) => Err(PatternError::TooBig),
        Err(regex::Error::Internal) => unreachable!(),
        Err(regex::Error::OutOfMemory) => Err(PatternError::Memory),
    }
}
