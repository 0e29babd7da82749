//! The words of a command, sorted into options, flags and plain words.

ghost use Rattle.std.specs.Prelude.{◌≡◌, IfOk, true, false, drop, map, string_bytes, codes};
ghost use Rattle.clap.specs.Words.{app_of, is_simple_and_free, rule_of};
ghost use Rattle.bonsai_words.specs.Parsing.{app_for, bare_app, flag_rule, place_rule, value_rule};
ghost use Rattle.bonsai_words.specs.Parsing.{IsSorted, IsTaken};
ghost use Rattle.bonsai_words.specs.Ordered.{synth_table, downset_table, check_table, eval_table};
ghost use Rattle.bonsai_words.specs.Ordered.{gen_table};

use crate::orders::WordsError;
use clap::error::ErrorKind;
use clap::{Arg, ArgAction, ArgMatches, Command};
use std::alloc::{AllocError, Global};

/// The specification.
pub const NAME: &str = "name";
/// The machine or the lasso.
pub const SECOND: &str = "second";
/// How many clients there are.
pub const CLIENTS: &str = "clients";

pub const BOUND: &str = "bound";

pub const FIRST: &str = "first";

pub const STEP: &str = "step";

pub const WORKERS: &str = "workers";

pub const PLAYER: &str = "player";

pub const AS_WRITTEN: &str = "as-written";

/// A plain word.
fn plain<'a>(alloc: Global, id: &'a str) -> Arg<'a>
    ensures rule { rule_of result ≡ place_rule id.entry.now }
    ensures local { result.global ≡ false }
{
    Arg::new(alloc, id).action(ArgAction::Set)
}

/// An option with a value, at most once.
fn option<'a>(alloc: Global, name: &'a str) -> Arg<'a>
    ensures rule { rule_of result ≡ value_rule name.entry.now }
    ensures local { result.global ≡ false }
{
    Arg::new(alloc, name).long(name).action(ArgAction::Set)
}

/// A flag, at most once.
fn flag<'a>(alloc: Global, name: &'a str) -> Arg<'a>
    ensures rule { rule_of result ≡ flag_rule name.entry.now }
    ensures local { result.global ≡ false }
{
    Arg::new(alloc, name).long(name).action(ArgAction::SetTrue)
}

/// A command without a flag for help.
fn command<'a>(alloc: Global, name: &'a str) -> Command<'a>
    ensures { app_of result ≡ bare_app name.entry.now }
{
    Command::new(alloc, name)
        .disable_help_flag(true)
        .disable_version_flag(true)
}

fn synth_command<'a>(alloc: Global) -> Result<Command<'a>, AllocError>
    ensures { IfOk result (λ c. app_of c ≡ app_for (codes "synth") synth_table) }
{
    command(alloc, "synth")
        .arg(plain(alloc, NAME))?
        .arg(option(alloc, BOUND))?
        .arg(option(alloc, FIRST))?
        .arg(option(alloc, STEP))?
        .arg(option(alloc, WORKERS))?
        .arg(flag(alloc, AS_WRITTEN))
}

fn downset_command<'a>(alloc: Global) -> Result<Command<'a>, AllocError>
    ensures { IfOk result (λ c. app_of c ≡ app_for (codes "downset") downset_table) }
{
    command(alloc, "downset")
        .arg(plain(alloc, NAME))?
        .arg(option(alloc, PLAYER))?
        .arg(option(alloc, BOUND))?
        .arg(flag(alloc, AS_WRITTEN))
}

fn check_command<'a>(alloc: Global) -> Result<Command<'a>, AllocError>
    ensures { IfOk result (λ c. app_of c ≡ app_for (codes "check") check_table) }
{
    command(alloc, "check")
        .arg(plain(alloc, NAME))?
        .arg(plain(alloc, SECOND))?
        .arg(option(alloc, BOUND))?
        .arg(flag(alloc, AS_WRITTEN))
}

fn eval_command<'a>(alloc: Global) -> Result<Command<'a>, AllocError>
    ensures { IfOk result (λ c. app_of c ≡ app_for (codes "eval") eval_table) }
{
    command(alloc, "eval")
        .arg(plain(alloc, NAME))?
        .arg(plain(alloc, SECOND))?
        .arg(flag(alloc, AS_WRITTEN))
}

fn gen_command<'a>(alloc: Global) -> Result<Command<'a>, AllocError>
    ensures { IfOk result (λ c. app_of c ≡ app_for (codes "gen") gen_table) }
{
    command(alloc, "gen")
        .arg(plain(alloc, CLIENTS))?
        .arg(option(alloc, WORKERS))
}

/// What `synth` reads. The first of the words is the command's.
pub fn synth<'a>(alloc: Global, words: &'a [String]) -> Result<ArgMatches<'a>, WordsError>
    ensures { IsSorted synth_table (drop 1 (map string_bytes words.entry.now)) result }
{
    sort(synth_command(alloc)?, words)
}

/// What `downset` reads. The first of the words is the command's.
pub fn downset<'a>(alloc: Global, words: &'a [String]) -> Result<ArgMatches<'a>, WordsError>
    ensures { IsSorted downset_table (drop 1 (map string_bytes words.entry.now)) result }
{
    sort(downset_command(alloc)?, words)
}

/// What `check` reads. The first of the words is the command's.
pub fn check<'a>(alloc: Global, words: &'a [String]) -> Result<ArgMatches<'a>, WordsError>
    ensures { IsSorted check_table (drop 1 (map string_bytes words.entry.now)) result }
{
    sort(check_command(alloc)?, words)
}

/// What `eval` reads. The first of the words is the command's.
pub fn eval<'a>(alloc: Global, words: &'a [String]) -> Result<ArgMatches<'a>, WordsError>
    ensures { IsSorted eval_table (drop 1 (map string_bytes words.entry.now)) result }
{
    sort(eval_command(alloc)?, words)
}

/// What `gen` reads. The first of the words is the command's.
pub fn generate<'a>(alloc: Global, words: &'a [String]) -> Result<ArgMatches<'a>, WordsError>
    ensures { IsSorted gen_table (drop 1 (map string_bytes words.entry.now)) result }
{
    sort(gen_command(alloc)?, words)
}

/// The words, of which the first names the command, as the command reads them.
fn sort<'a>(command: Command<'a>, words: &'a [String]) -> Result<ArgMatches<'a>, WordsError>
    ensures { is_simple_and_free (app_of command.entry) ≡ true
        → IsTaken (app_of command.entry) (map string_bytes words.entry.now) result }
{
    match command.try_get_matches_from(words) {
        Ok(matches) => Ok(matches),
        Err(error) => Err(match error.kind() {
            ErrorKind::OutOfMemory => WordsError::Memory,
            _ => WordsError::Usage,
        }),
    }
}
