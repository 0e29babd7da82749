//! Games of quotients.

ghost use Rattle.std.specs.Prelude.{◌≡◌, ◌≤◌, IfOk};
ghost use Rattle.tlsf_basic.specs.Specification.{signal_count};
ghost use Rattle.dual_game.specs.Machines.{SharesMachine};
ghost use Rattle.dual_game.specs.Winning.{Decides};
ghost use Rattle.strategy_play.specs.Ordered.{IsInOrder};

use crate::games::game;
use game_form::Game;
use nba_quotient::quotient;
use std::alloc::{AllocError, Global};
use word_core::{Automaton, Names, Player};

/// The game of an automaton's quotient over these names, at most 40, for a player, with the bound `k`, at most 10,000.
///
/// With each bound it decides whether some machine of the player, of any size, keeps that bound on the automaton; and
/// the machine of its maximal held vectors is that of the maximal held vectors of the automaton's own game.
pub fn quotient_game(
    alloc: Global,
    a: &Automaton,
    names: &Names,
    player: Player,
    k: u32,
) -> Result<Game, AllocError>
    requires bound { k ≤ 10000 }
    requires few { signal_count names.now ≤ 40 }
    requires signals { a.now.signals ≡ signal_count names.now }
    ensures decides { IfOk result (Decides a.now names.now player) }
    ensures order { IfOk result IsInOrder }
    ensures machine { IfOk result (SharesMachine a.now names.now player) }
{
    let quotient = quotient(alloc, a)?;
    let small = game(alloc, &quotient, names, player, k)?;
    let _ = quotient.states();
    let _ = a.states();
    small.known();
    Ok(small)
}
