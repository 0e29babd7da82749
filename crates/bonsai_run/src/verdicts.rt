//! The verdict on a specification: bound after bound, both players' games.

ghost use Rattle.std.specs.Prelude.{◌≡◌, ◌≤◌, true, false, IfOk, IfErr};
ghost use Rattle.dual_game.specs.declared.games.Pair.{Pair};
ghost use Rattle.dual_game.specs.Automata.{IsPairOf, IsLimitOfPair};
ghost use Rattle.dual_game.specs.Bounds.{AreBounds};
ghost use Rattle.antichain_list.specs.Antichain.{IsAntichain};
ghost use Rattle.counter_vec.specs.Counters.{at_or_below, lexicographic};
ghost use Rattle.dual_game.specs.Machines.{IsMachineOfHeld, SharesMachine};
ghost use Rattle.dual_game.specs.Winning.{Decides, with_bound};
ghost use Rattle.game_form.specs.Covering.{CoversLetters};
ghost use Rattle.game_core.specs.Solved.{IsSettled};
ghost use Rattle.game_core.specs.Start.{IsStart, raised_by};
ghost use Rattle.game_form.specs.Held.{IsMachineOf, KeepsFrom};
ghost use Rattle.game_form.specs.Letters.{HasLetters};
ghost use Rattle.game_form.specs.Vector.{initial};
ghost use Rattle.strategy_play.specs.Ordered.{IsInOrder};
ghost use Rattle.ltl_form.specs.Formula.{signals_below};
ghost use Rattle.tlsf_basic.specs.Specification.{signal_count};
ghost use Rattle.word_core.specs.declared.names.Names.{Names};
ghost use Rattle.word_core.specs.declared.names.Player.TheVariants.{System, Environment};
ghost use Rattle.bonsai_run.specs.Answers.{IsVerdict};
ghost use Rattle.bonsai_run.specs.Causes.{ByLimit};
ghost use Rattle.bonsai_run.specs.Turns.{AreStarts, IsSide, IsTurn};

use crate::faults::Fault;
use antichain_list::ListDownset;
use counter_vec::Counters;
use dual_game::{Bounds, automata, quotient_game};
use game_core::{Attempt, everything, lift, solve_from};
use game_form::Game;
use std::alloc::{AllocError, Global};
use strategy_play::extract;
use tlsf_basic::Spec;
use word_core::{Machine, Player};

/// Which player wins, at the least bound of those tried, and with which machine.
#[derive(Debug, Drop)]
pub enum Verdict {
    Won { bound: u32, machine: Machine },
    /// Nobody wins at any bound up to this, the last one.
    Unknown { bound: u32 },
}

/// The verdict on a specification of at most 40 signals. The games are those of the automata's quotients, in which the
/// same bounds are kept.
pub fn decide(alloc: Global, spec: &Spec, bounds: Bounds) -> Result<Verdict, Fault>
    requires bounds { AreBounds bounds }
    requires last { bounds.last ≤ 10000 }
    requires few { signal_count spec.now.names ≤ 40 }
    requires numbered { signals_below (signal_count spec.now.names) spec.now.formula ≡ true }
    ensures verdict { IfOk result (λ v. (pair : Pair) × IsPairOf spec.now pair × IsVerdict pair spec.now.names bounds v) }
    ensures fault { IfErr result (ByLimit (IsLimitOfPair spec.now)) }
{
    let pair = automata(alloc, spec)?;
    let names = &spec.names;
    let system = quotient_game(alloc, &pair.system, names, Player::System, bounds.first)?;
    let environment = quotient_game(
        alloc,
        &pair.environment,
        names,
        Player::Environment,
        bounds.first,
    )?;
    Ok(try_bounds(alloc, system, environment, bounds)?)
}

/// What each player's game is solved from.
#[derive(Drop)]
struct Starts {
    system: Vec<Counters>,
    environment: Vec<Counters>,
}

/// What a game's solution at one bound is worth.
#[derive(Drop)]
enum Side {
    /// A machine of the player that keeps the bound.
    Won(Machine),
    /// There is none; all that the player can hold is at or below these vectors.
    Lost(Vec<Counters>),
}

/// What both games' solutions at one bound are worth.
#[derive(Drop)]
enum Turn {
    /// A machine of one of the players that keeps the bound.
    Won(Machine),
    /// There is none, and from these vectors the games can be solved.
    Lost(Starts),
}

/// Tries bound after bound, the system's game first. Each game is solved from what the bound before left of it.
fn try_bounds(
    alloc: Global,
    system: Game,
    environment: Game,
    bounds: Bounds,
) -> Result<Verdict, AllocError>
    requires bounds { AreBounds bounds }
    requires last { bounds.last ≤ 10000 }
    requires system_letters { HasLetters system }
    requires system_covers { CoversLetters system }
    requires environment_letters { HasLetters environment }
    requires environment_covers { CoversLetters environment }
    requires system_order { IsInOrder system }
    requires environment_order { IsInOrder environment }
    ensures { (pair : Pair) (names : Names) → Decides pair.system names System system → Decides pair.environment names Environment environment → SharesMachine pair.system names System system → SharesMachine pair.environment names Environment environment → IfOk result (IsVerdict pair names bounds) }
{
    let mut bound = bounds.first;
    let mut games = at_bound(system, environment, bound);
    let mut starts = first_starts(alloc, &games.0, &games.1)?;
    loop {
        match winner(alloc, &games.0, &games.1, starts)? {
            Turn::Won(machine) => return Ok(Verdict::Won { bound, machine }),
            Turn::Lost(left) => match bounds.after(bound) {
                Some(next) => {
                    starts = next_starts(alloc, &games.0, &games.1, &left, next - bound)?;
                    games = at_bound(games.0, games.1, next);
                    bound = next;
                }
                None => return Ok(Verdict::Unknown { bound }),
            },
        }
    }
}

/// Both games with a bound, at most 10,000.
fn at_bound(system: Game, environment: Game, bound: u32) -> (Game, Game)
    requires { bound ≤ 10000 }
    ensures system { result.0 ≡ with_bound bound system }
    ensures environment { result.1 ≡ with_bound bound environment }
{
    let k = bound as i16;
    (system.with_bound(k), environment.with_bound(k))
}

/// What the games are solved from at the first bound.
fn first_starts(alloc: Global, system: &Game, environment: &Game) -> Result<Starts, AllocError>
    ensures { IfOk result (AreStarts system.now environment.now) }
{
    Ok(Starts {
        system: everything(alloc, system)?,
        environment: everything(alloc, environment)?,
    })
}

/// What the games are solved from at a bound that is greater by `by`, at most 10,000.
fn next_starts(
    alloc: Global,
    system: &Game,
    environment: &Game,
    left: &Starts,
    by: u32,
) -> Result<Starts, AllocError>
    requires left { AreStarts system.now environment.now left.now }
    requires by { by ≤ 10000 }
    ensures { IfOk result (AreStarts (raised_by by system.now) (raised_by by environment.now)) }
{
    let by = by as i16;
    Ok(Starts {
        system: lift(alloc, system, &left.system, by)?,
        environment: lift(alloc, environment, &left.environment, by)?,
    })
}

/// The machine of the player who wins its game, if one does.
fn winner(
    alloc: Global,
    system: &Game,
    environment: &Game,
    starts: Starts,
) -> Result<Turn, AllocError>
    requires system_letters { HasLetters system.now }
    requires system_covers { CoversLetters system.now }
    requires environment_letters { HasLetters environment.now }
    requires environment_covers { CoversLetters environment.now }
    requires system_order { IsInOrder system.now }
    requires environment_order { IsInOrder environment.now }
    requires starts { AreStarts system.now environment.now starts }
    ensures { IfOk result (IsTurn system.now environment.now) }
{
    match side_of(alloc, system, starts.system)? {
        Side::Won(machine) => Ok(Turn::Won(machine)),
        Side::Lost(left) => match side_of(alloc, environment, starts.environment)? {
            Side::Won(machine) => Ok(Turn::Won(machine)),
            Side::Lost(other) => Ok(Turn::Lost(Starts {
                system: left,
                environment: other,
            })),
        },
    }
}

/// A machine that wins a game, if there is one.
fn side_of(alloc: Global, g: &Game, start: Vec<Counters>) -> Result<Side, AllocError>
    requires letters { HasLetters g.now }
    requires covers { CoversLetters g.now }
    requires order { IsInOrder g.now }
    requires start { IsStart g.now start.items }
    ensures { IfOk result (IsSide g.now) }
{
    match solve_from(alloc, g, start, false)? {
        Attempt::Held(list) => Ok(Side::Won(strategy(alloc, g, &list)?)),
        Attempt::Lost(left) => Ok(Side::Lost(left)),
    }
}

/// The machine of the maximal held vectors, one of which is at or above the initial one.
fn strategy(alloc: Global, g: &Game, list: &ListDownset<Counters>) -> Result<Machine, AllocError>
    requires letters { HasLetters g.now }
    requires covers { CoversLetters g.now }
    requires order { IsInOrder g.now }
    requires list { IsSettled g.now false list.now }
    ensures machine { IfOk result (IsMachineOf g.now) }
    ensures keeps { IfOk result (λ m. KeepsFrom g.now m 0 (initial g.now)) }
    ensures held { IfOk result (λ m. IsMachineOfHeld g.now m.states) }
{
    ascends(list);
    let machine = extract(alloc, g, list)?;
    let _ = machine.states();
    Ok(machine)
}

/// What is known of every list: its entries ascend, and none is at or below another one.
pub fn ascends(list: &ListDownset<Counters>)
    ensures { IsAntichain at_or_below lexicographic list.now }
{
    let _ = list.entries();
}
