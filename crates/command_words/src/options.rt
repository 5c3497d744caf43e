//! The options and files that a command takes.
ghost use Rattle.std.specs.Prelude.{◌≡◌, false};
ghost use Rattle.clap.specs.Words.{rule_of};
ghost use Rattle.command_words.specs.Commands.{file_rule, flag_rule, number_rule, one_file_rule, option_rule, required_rule};

use clap::builder::ValueParser;
use clap::{Arg, ArgAction};
use std::alloc::Global;

/// An option `--NAME VALUE`. Its value is not empty.
pub(crate) fn option<'a>(alloc: Global, name: &'a str, value: &'a str, help: &'a str) -> Arg<'a>
    ensures rule { rule_of result ≡ option_rule name.entry.now }
    ensures local { result.global ≡ false }
{
    Arg::new(alloc, name)
        .long(name)
        .value_name(value)
        .value_parser(ValueParser::NonEmptyString)
        .action(ArgAction::Set)
        .help(help)
}

/// An option `--NAME VALUE`. Its value is a number in these bounds.
pub(crate) fn number_option<'a>(
    alloc: Global,
    name: &'a str,
    value: &'a str,
    help: &'a str,
    least: u64,
    most: u64,
) -> Arg<'a>
    ensures rule { rule_of result ≡ number_rule name.entry.now least most }
    ensures local { result.global ≡ false }
{
    Arg::new(alloc, name)
        .long(name)
        .value_name(value)
        .value_parser(ValueParser::Unsigned(least, most))
        .action(ArgAction::Set)
        .help(help)
}

/// An option that cannot be left out.
pub(crate) fn required_option<'a>(
    alloc: Global,
    name: &'a str,
    value: &'a str,
    help: &'a str,
) -> Arg<'a>
    ensures rule { rule_of result ≡ required_rule (option_rule name.entry.now) }
    ensures local { result.global ≡ false }
{
    option(alloc, name, value, help).required(true)
}

/// An option `--NAME`, which has no value.
pub(crate) fn flag<'a>(alloc: Global, name: &'a str, help: &'a str) -> Arg<'a>
    ensures rule { rule_of result ≡ flag_rule name.entry.now }
    ensures local { result.global ≡ false }
{
    Arg::new(alloc, name)
        .long(name)
        .action(ArgAction::SetTrue)
        .help(help)
}

/// A file, whose name is not empty.
pub(crate) fn file<'a>(alloc: Global, name: &'a str, help: &'a str) -> Arg<'a>
    ensures rule { rule_of result ≡ required_rule (one_file_rule name.entry.now) }
    ensures local { result.global ≡ false }
{
    Arg::new(alloc, name)
        .value_parser(ValueParser::NonEmptyString)
        .action(ArgAction::Set)
        .required(true)
        .help(help)
}

/// Files, one at the least, none with an empty name.
pub(crate) fn files<'a>(alloc: Global, name: &'a str, help: &'a str) -> Arg<'a>
    ensures rule { rule_of result ≡ required_rule (file_rule name.entry.now) }
    ensures local { result.global ≡ false }
{
    Arg::new(alloc, name)
        .value_parser(ValueParser::NonEmptyString)
        .action(ArgAction::Append)
        .required(true)
        .help(help)
}
