//! Log lines in logfmt: pairs `key=value`, of which a value is quoted where it needs to be.
use jiff::Timestamp;
use log::kv::{self, Source, Value, VisitSource};
use log::span::Spans;
use log::{Level, Log, Metadata, Record};
use std::fmt;
use std::fmt::{Display, Formatter};
use std::time::Clock;

/// Writes each record to the standard error of `R`, a line of logfmt for each: `ts`, `level`, `msg`, and the record's pairs. Messages
/// have no quotation marks; a text from outside is a pair with a `Quoted` value, and a URL one with a `QuotedUrl`.
#[derive(Clone, Copy, Drop)]
pub struct Logfmt<R>(pub R);

impl<R: Eprint + Clock> Log for Logfmt<R> {
    ghost use Rattle.std.specs.Prelude.{true, [], Some};

    ghost enables = { λ _ _ _. Some true };

    ghost target_of = { λ _. Some [] };

    fn enabled(&self, _metadata: &Metadata<'_>) -> bool {
        true
    }

    fn log<D: Display, K: Source, S: Spans>(&self, record: &Record<'_, D, K, S>) {
        let at = Timestamp::now(&self.0).ok();
        // Nobody can be told that a line was not written.
        let _ = self.0.eprintln(Line { at, record });
    }

    fn flush(&self) {}

    fn target(&self) -> &str {
        ""
    }
}

/// A record as a line, without its line feed.
#[derive(Drop)]
struct Line<'a, 'r, D, K, S> {
    at: Option<Timestamp>,
    record: &'a Record<'r, D, K, S>,
}

impl<'a, 'r, D: Display, K: Source, S> Display for Line<'a, 'r, D, K, S> {
    fn fmt<W: fmt::Write>(&self, f: &mut Formatter<W>) -> fmt::Result {
        if let Some(at) = self.at {
            write!(f, "ts={at} ")?;
        }
        let level = name_of(self.record.level());
        write!(f, "level={level} msg=\"")?;
        f.write(self.record.args())?;
        f.write_str("\"")?;
        self.record.key_values().visit(&mut Pairs { f })?;
        Ok(())
    }
}

fn name_of(level: Level) -> &'static str {
    match level {
        Level::Error => "error",
        Level::Warn => "warn",
        Level::Info => "info",
        Level::Debug => "debug",
        Level::Trace => "trace",
    }
}

#[derive(Drop)]
struct Pairs<'f, W> {
    f: &'f mut Formatter<W>,
}

impl<'f, W: fmt::Write> VisitSource for Pairs<'f, W> {
    fn visit_pair<D: Display>(&mut self, key: &str, value: Value<'_, D>) -> Result<(), kv::Error> {
        write!(self.f, " {key}={value}")?;
        Ok(())
    }
}
