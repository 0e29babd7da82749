//! The automata and games of a specification.

ghost use Rattle.std.specs.Prelude.{◌≡◌, ℕ, ◌<◌, ◌≤◌, IfOk, IfErr, List, true};
ghost use Rattle.word_core.specs.Lasso.{LassoData, size};
ghost use Rattle.ltl_form.specs.declared.normals.FormError.TheVariants.{TooManyFormulas};
ghost use Rattle.ltl_form.specs.Meaning.{holds_at, tree_holds};
ghost use Rattle.ltl_form.specs.NodeTrees.{formula_at};
ghost use Rattle.ltl_form.specs.Formula.{signals_below};
ghost use Rattle.ltl_form.specs.Normal.{LiteralsBelow};
ghost use Rattle.tlsf_basic.specs.Specification.{signal_count};
ghost use Rattle.tableau_nba.specs.Acceptance.{AcceptsTruthOf};
ghost use Rattle.tableau_nba.specs.Walks.Outcome.{too_wide, too_many};
ghost use Rattle.dual_game.specs.Automata.{IsAutomatonOf, IsPairOf, IsNormalOf, IsLimitOf, IsLimitOfPair, avoided, avoids_truth, formula_count};
ghost use Rattle.dual_game.specs.Tableaux.{IsTrimmedTableau, IsTableauLimit};
ghost use Rattle.dual_game.specs.Games.{kind_of, IsGameOf};

use crate::errors::GameError;
use action_groups::make_game;
use game_form::Game;
use ltl_form::{FormError, Normal, nnf};
use nba_trim::trim;
use std::alloc::{AllocError, Global};
use tableau_nba::tableau;
use tlsf_basic::Spec;
use word_core::{Automaton, Kind, Names, Player, Target};

/// The automata of both players, over the same signals.
#[derive(Debug, Drop)]
pub struct Pair {
    /// Of the negated formula.
    pub system: Automaton,
    /// Of the formula.
    pub environment: Automaton,
}

/// The automata of a specification of at most 64 signals, each the number of a name: the system's of
/// the negated formula, and the environment's of the formula, without states that no accepting run
/// needs.
///
/// TooManyFormulas comes first, for both; then TooWide or TooManyStates of the system's, then of the
/// environment's.
pub fn automata(alloc: Global, s: &Spec) -> Result<Pair, GameError>
    requires few { signal_count s.now.names ≤ 64 }
    requires numbered { signals_below (signal_count s.now.names) s.now.formula ≡ true }
    ensures system { IfOk result (λ p. p.system.signals ≡ signal_count s.now.names) }
    ensures environment { IfOk result (λ p. p.environment.signals ≡ signal_count s.now.names) }
    ensures pair { IfOk result (IsPairOf s.now) }
    ensures limit { IfErr result (IsLimitOfPair s.now) }
{
    let negated = normal_of(alloc, s, Player::System)?;
    let positive = normal_of(alloc, s, Player::Environment)?;
    Ok(Pair {
        system: trimmed(alloc, &negated, signals_of(&s.names))?,
        environment: trimmed(alloc, &positive, signals_of(&s.names))?,
    })
}

/// The automaton of one player alone.
pub fn automaton(alloc: Global, s: &Spec, player: Player) -> Result<Automaton, GameError>
    requires few { signal_count s.now.names ≤ 64 }
    requires numbered { signals_below (signal_count s.now.names) s.now.formula ≡ true }
    ensures signals { IfOk result (λ a. a.signals ≡ signal_count s.now.names) }
    ensures made { IfOk result (IsAutomatonOf s.now player) }
    ensures limit { IfErr result (IsLimitOf s.now player) }
{
    let normal = normal_of(alloc, s, player)?;
    trimmed(alloc, &normal, signals_of(&s.names))
}

/// The game of an automaton over these names, at most 40, for a player, with the bound `k`, at most
/// 10,000.
pub fn game(
    alloc: Global,
    a: &Automaton,
    names: &Names,
    player: Player,
    k: u32,
) -> Result<Game, AllocError>
    requires bound { k ≤ 10000 }
    requires few { signal_count names.now ≤ 40 }
    requires signals { a.now.signals ≡ signal_count names.now }
    ensures { IfOk result (IsGameOf a.now names.now player k) }
{
    make_game(
        alloc,
        a,
        player,
        kind_of(player, names.target),
        names.inputs.len() as u32,
        names.outputs.len() as u32,
        k as i16,
    )
}

/// Whether a player sees the other's choice of a step before its own: the system under Mealy, the
/// environment under Moore.
pub fn kind_of(player: Player, target: Target) -> Kind
    ensures { result ≡ kind_of player target }
{
    match (player, target) {
        (Player::System, Target::Mealy) | (Player::Environment, Target::Moore) => Kind::Second,
        (Player::System, Target::Moore) | (Player::Environment, Target::Mealy) => Kind::First,
    }
}

/// The number of signals, at most 64.
fn signals_of(names: &Names) -> u32
    requires { signal_count names.now ≤ 64 }
    ensures { result ≡ signal_count names.now }
{
    names.inputs.len() as u32 + names.outputs.len() as u32
}

/// The normal form of what a player must avoid: the negated formula for the system, the formula for
/// the environment. The specification has at most 64 signals, each the number of a name.
pub fn normal_of(alloc: Global, s: &Spec, player: Player) -> Result<Normal, FormError>
    requires few { signal_count s.now.names ≤ 64 }
    requires numbered { signals_below (signal_count s.now.names) s.now.formula ≡ true }
    ensures literals { IfOk result (λ f. LiteralsBelow (signal_count s.now.names) f.nodes) }
    ensures normal { IfOk result (λ f. IsNormalOf s.now player f.nodes f.root) }
    ensures few { IfOk result (λ _. formula_count s.now player ≤ 512) }
    ensures many { IfErr result (λ e. e ≡ TooManyFormulas → 512 < formula_count s.now player) }
    ensures meaning { (w : LassoData) → 0 < size w → IfOk result (λ f. tree_holds w (formula_at f.nodes f.root) 0 ≡ avoided player (holds_at w s.now.formula 0)) }
{
    let normal = nnf(alloc, &s.formula, avoids_truth(player))?;
    let _ = normal.nodes();
    Ok(normal)
}

/// Whether a player must avoid that the formula holds, as the environment must. The system must avoid that it fails.
fn avoids_truth(player: Player) -> bool
    ensures { result ≡ avoids_truth player }
{
    match player {
        Player::System => false,
        Player::Environment => true,
    }
}

/// The automaton of a normal form, without states that no accepting run needs.
fn trimmed(alloc: Global, f: &Normal, signals: u32) -> Result<Automaton, GameError>
    requires literals { LiteralsBelow signals f.now.nodes }
    requires few { signals ≤ 64 }
    ensures signals { IfOk result (λ a. a.signals ≡ signals) }
    ensures tableau { IfOk result (IsTrimmedTableau f.now.nodes f.now.root signals) }
    ensures limit { IfErr result (IsTableauLimit f.now.nodes f.now.root signals) }
    ensures accepts { IfOk result (AcceptsTruthOf f.now.nodes f.now.root) }
{
    let whole = tableau(alloc, f, signals)?;
    let least = trim(alloc, &whole)?;
    let _ = least.states();
    Ok(least)
}
