//! The options among a command's words.

ghost use Rattle.std.specs.Prelude.{◌≡◌, false};
ghost use Rattle.clap.specs.Words.{rule_of};
ghost use Rattle.command_words.specs.Options.{flag_rule, needed_rule, option_rule, value_rule};

use clap::{Arg, ArgAction};
use std::alloc::Global;

/// An option that takes a value, by its long name.
pub(crate) fn option<'a>(alloc: Global, name: &'a str) -> Arg<'a>
    ensures rule { rule_of result ≡ option_rule name.entry.now }
    ensures own { result.global ≡ false }
{
    Arg::new(alloc, name).long(name).action(ArgAction::Set)
}

/// One that takes no value, and is there or not.
pub(crate) fn flag<'a>(alloc: Global, name: &'a str) -> Arg<'a>
    ensures rule { rule_of result ≡ flag_rule name.entry.now }
    ensures own { result.global ≡ false }
{
    Arg::new(alloc, name).long(name).action(ArgAction::SetTrue)
}

/// One that has to be said.
pub(crate) fn needed<'a>(alloc: Global, name: &'a str) -> Arg<'a>
    ensures rule { rule_of result ≡ needed_rule name.entry.now }
    ensures own { result.global ≡ false }
{
    option(alloc, name).required(true)
}

/// A value that has to be said, by its place.
pub(crate) fn value<'a>(alloc: Global, name: &'a str) -> Arg<'a>
    ensures rule { rule_of result ≡ value_rule name.entry.now }
    ensures own { result.global ≡ false }
{
    Arg::new(alloc, name).required(true).action(ArgAction::Set)
}
