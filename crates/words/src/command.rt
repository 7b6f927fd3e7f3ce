ghost use Rattle.std.specs.Prelude.{◌≡◌, ◌≢◌, true, false, map, string_bytes, codes, Err, IfOk};
ghost use Rattle.clap.specs.Words.{app_of, fault_of, is_simple_and_free, kind_of, rule_of, with_rule};
ghost use Rattle.words.specs.Commands.{TakenAs, bare, is_faultless, option_rule, positional_rule};

use crate::fault::WordsFault;
use clap::error::ErrorKind;
use clap::{Arg, ArgMatches, Command, Error};
use std::alloc::{AllocError, Global};

/// A word in its place, which must be given.
fn positional<'a>(alloc: Global, name: &'a str) -> Arg<'a>
    ensures rule { rule_of result ≡ positional_rule name.entry.now }
    ensures local { result.global ≡ false }
{
    Arg::new(alloc, name).required(true)
}

/// An option with one value.
fn option<'a>(alloc: Global, name: &'a str) -> Arg<'a>
    ensures rule { rule_of result ≡ option_rule name.entry.now }
    ensures local { result.global ≡ false }
{
    Arg::new(alloc, name).long(name)
}

/// A command without arguments, whose words begin after the program's name, and without a flag for help.
pub(crate) fn bare<'a>(alloc: Global, name: &'a str) -> Command<'a>
    ensures { app_of result ≡ bare name.entry.now }
{
    Command::new(alloc, name)
        .no_binary_name(true)
        .disable_help_flag(true)
}

pub(crate) fn with_positional<'a>(
    alloc: Global,
    command: Command<'a>,
    name: &'a str,
) -> Result<Command<'a>, AllocError>
    ensures { IfOk result (λ c. app_of c ≡ with_rule (app_of command.entry) (positional_rule name.entry.now)) }
{
    command.arg(positional(alloc, name))
}

pub(crate) fn with_option<'a>(
    alloc: Global,
    command: Command<'a>,
    name: &'a str,
) -> Result<Command<'a>, AllocError>
    ensures { IfOk result (λ c. app_of c ≡ with_rule (app_of command.entry) (option_rule name.entry.now)) }
{
    command.arg(option(alloc, name))
}

/// An error of clap's is of the words' form, but for want of memory.
fn words_fault(error: Error) -> WordsFault
    ensures { result ≡ WordsFault.Usage → kind_of error ≢ ErrorKind.OutOfMemory }
{
    match error.kind() {
        ErrorKind::OutOfMemory => WordsFault::Memory,
        _ => WordsFault::Usage,
    }
}

/// The words as the command takes them, or Usage exactly where it does not.
pub(crate) fn taken<'a>(
    command: Command<'a>,
    words: &'a [String],
) -> Result<ArgMatches<'a>, WordsFault>
    requires { is_simple_and_free (app_of command) ≡ true }
    ensures taken { IfOk result (TakenAs (app_of command.entry) (map string_bytes words.entry.now)) }
    ensures usage { result ≡ Err WordsFault.Usage
        → is_faultless (fault_of (app_of command.entry) (map string_bytes words.entry.now)) ≡ false }
{
    match command.try_get_matches_from(words) {
        Ok(matches) => Ok(matches),
        Err(error) => Err(words_fault(error)),
    }
}
