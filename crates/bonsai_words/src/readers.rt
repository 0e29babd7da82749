//! Each command's reader.

ghost use Rattle.std.specs.Prelude.{◌≡◌, ◌<◌, ◌≤◌, IfOk, IfSome, true, map, drop, string_bytes};
ghost use Rattle.clap.specs.Words.{first_value, found_of};
ghost use Rattle.bonsai_words.specs.Order.{IsInRange, names_of};
ghost use Rattle.std.specs.List.{All, Contains};
ghost use Rattle.bonsai_words.specs.Ordered.{Answers, ordered, ordered_by, synth_table, synth_of};
ghost use Rattle.bonsai_words.specs.Ordered.{downset_table, downset_of, check_table, check_of};
ghost use Rattle.bonsai_words.specs.Ordered.{eval_table, eval_of, gen_table, gen_of};

use crate::commands::{
    self, AS_WRITTEN, BOUND, CLIENTS, FIRST, NAME, PLAYER, SECOND, STEP, WORKERS,
};
use crate::orders::{Order, WordsError};
use crate::values::{name_of, number_of, player_of};
use clap::ArgMatches;
use std::alloc::Global;

/// The greatest bound that can be asked for.
const MOST_BOUND: u32 = 10_000;
/// The greatest number of workers.
const MOST_WORKERS: u32 = 64;
/// The greatest number of clients.
const MOST_CLIENTS: u32 = 8;
/// The last bound to try where none is given.
const DEFAULT_BOUND: u32 = 8;

/// The order that the words name, which are those after the program's name.
///
/// `Usage` where they are no order.
pub fn read_words(alloc: Global, words: &[String]) -> Result<Order, WordsError>
    ensures in_range { IfOk result IsInRange }
    ensures exact { Answers (ordered (map string_bytes words.now)) result }
    ensures names { IfOk result (λ order. All (Contains (map string_bytes words.now))
        (names_of order)) }
{
    let Some(command) = words.first() else {
        return Err(WordsError::Usage);
    };
    match command.as_str() {
        "synth" => read_synth(alloc, words),
        "downset" => read_downset(alloc, words),
        "check" => read_check(alloc, words),
        "eval" => read_eval(alloc, words),
        "gen" => read_gen(alloc, words),
        _ => Err(WordsError::Usage),
    }
}

fn read_synth(alloc: Global, words: &[String]) -> Result<Order, WordsError>
    ensures in_range { IfOk result IsInRange }
    ensures exact { Answers (ordered_by synth_table synth_of (drop 1 (map string_bytes words.now))) result }
{
    let matches = commands::synth(alloc, words)?;
    synth_order(alloc, &matches, matches.get_flag(AS_WRITTEN))
}

fn synth_order(
    alloc: Global,
    matches: &ArgMatches<'_>,
    as_written: bool,
) -> Result<Order, WordsError>
    ensures in_range { IfOk result IsInRange }
    ensures exact { Answers (synth_of (first_value (found_of matches.now)) as_written) result }
{
    let last = number_of(matches, BOUND, Some(DEFAULT_BOUND), 0, MOST_BOUND)?;
    let first = number_of(matches, FIRST, Some(0), 0, MOST_BOUND)?;
    let step = number_of(matches, STEP, Some(1), 1, MOST_BOUND)?;
    let workers = number_of(matches, WORKERS, Some(1), 1, MOST_WORKERS)?;
    if last < first {
        return Err(WordsError::Usage);
    }
    let name = name_of(alloc, matches, NAME)?;
    Ok(Order::Synth {
        name,
        bounds: (first, step, last),
        workers,
        as_written,
    })
}

fn read_downset(alloc: Global, words: &[String]) -> Result<Order, WordsError>
    ensures in_range { IfOk result IsInRange }
    ensures exact { Answers (ordered_by downset_table downset_of (drop 1 (map string_bytes words.now))) result }
{
    let matches = commands::downset(alloc, words)?;
    downset_order(alloc, &matches, matches.get_flag(AS_WRITTEN))
}

fn downset_order(
    alloc: Global,
    matches: &ArgMatches<'_>,
    as_written: bool,
) -> Result<Order, WordsError>
    ensures in_range { IfOk result IsInRange }
    ensures exact { Answers (downset_of (first_value (found_of matches.now)) as_written) result }
{
    let player = player_of(matches, PLAYER)?;
    let bound = number_of(matches, BOUND, None, 0, MOST_BOUND)?;
    let name = name_of(alloc, matches, NAME)?;
    Ok(Order::Downset {
        name,
        player,
        bound,
        as_written,
    })
}

fn read_check(alloc: Global, words: &[String]) -> Result<Order, WordsError>
    ensures in_range { IfOk result IsInRange }
    ensures exact { Answers (ordered_by check_table check_of (drop 1 (map string_bytes words.now))) result }
{
    let matches = commands::check(alloc, words)?;
    check_order(alloc, &matches, matches.get_flag(AS_WRITTEN))
}

fn check_order(
    alloc: Global,
    matches: &ArgMatches<'_>,
    as_written: bool,
) -> Result<Order, WordsError>
    ensures in_range { IfOk result IsInRange }
    ensures exact { Answers (check_of (first_value (found_of matches.now)) as_written) result }
{
    let bound = number_of(matches, BOUND, None, 0, MOST_BOUND)?;
    let name = name_of(alloc, matches, NAME)?;
    let machine = name_of(alloc, matches, SECOND)?;
    Ok(Order::Check {
        name,
        machine,
        bound,
        as_written,
    })
}

fn read_eval(alloc: Global, words: &[String]) -> Result<Order, WordsError>
    ensures in_range { IfOk result IsInRange }
    ensures exact { Answers (ordered_by eval_table eval_of (drop 1 (map string_bytes words.now))) result }
{
    let matches = commands::eval(alloc, words)?;
    eval_order(alloc, &matches, matches.get_flag(AS_WRITTEN))
}

fn eval_order(
    alloc: Global,
    matches: &ArgMatches<'_>,
    as_written: bool,
) -> Result<Order, WordsError>
    ensures in_range { IfOk result IsInRange }
    ensures exact { Answers (eval_of (first_value (found_of matches.now)) as_written) result }
{
    let name = name_of(alloc, matches, NAME)?;
    let lasso = name_of(alloc, matches, SECOND)?;
    Ok(Order::Eval {
        name,
        lasso,
        as_written,
    })
}

fn read_gen(alloc: Global, words: &[String]) -> Result<Order, WordsError>
    ensures in_range { IfOk result IsInRange }
    ensures exact { Answers (ordered_by gen_table gen_of (drop 1 (map string_bytes words.now))) result }
{
    let matches = commands::generate(alloc, words)?;
    gen_order(&matches)
}

fn gen_order(matches: &ArgMatches<'_>) -> Result<Order, WordsError>
    ensures in_range { IfOk result IsInRange }
    ensures exact { Answers (gen_of (first_value (found_of matches.now)) true) result }
{
    let clients = number_of(matches, CLIENTS, None, 1, MOST_CLIENTS)?;
    let workers = number_of(matches, WORKERS, Some(1), 1, MOST_WORKERS)?;
    Ok(Order::Gen { clients, workers })
}
