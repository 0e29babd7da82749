//! Games of automata.

ghost use Rattle.std.specs.Prelude.{◌≡◌, ◌<◌, ◌≤◌, ◌+◌, ◌-◌, ◌^◌, ◌≤ℤ◌, ℕ, pos, length, vec_len, IfOk, OnOk};
ghost use Rattle.std.specs.List.{All};
ghost use Rattle.action_groups.specs.First.{AreOptions};
ghost use Rattle.action_groups.specs.Part.{AreNodes, ArePairs};
ghost use Rattle.action_groups.specs.Rank.{IsRanked};
ghost use Rattle.action_groups.specs.Row.{AreRows};
ghost use Rattle.action_groups.specs.Way.{AreSteps};
ghost use Rattle.std.specs.Prelude.{map};
ghost use Rattle.word_core.specs.Tree.{label_of};
ghost use Rattle.action_groups.specs.Labels.{IsLabelled};
ghost use Rattle.action_groups.specs.Actions.{AreActionsOf, HasEffectRows, HasPartRows, HasSameLabels, inputs_lead};
ghost use Rattle.action_groups.specs.Grouped.{IsGroupedGame};
ghost use Rattle.action_groups.specs.Sides.{leads};
ghost use Rattle.action_groups.specs.Rows.{HasRows};
ghost use Rattle.action_groups.specs.Listing.{IsListedClass, class_from, with_numbers};
ghost use Rattle.action_groups.specs.Options.{HasOptions};
ghost use Rattle.action_groups.specs.Parts.{AreParts, HasLetterParts, HasSameActions, AreNumbered};
ghost use Rattle.game_form.specs.Covering.{CoversLetters};
ghost use Rattle.game_form.specs.Letters.{HasLetters};
ghost use Rattle.game_form.specs.Game.{lanes};

use crate::firsts::{Firsts, split_first};
use crate::groups::Letters;
use crate::least_letters::met_letters;
use crate::memos::Memo;
use crate::orders::Order;
use crate::ranks::{Ranked, rank, relabelled};
use crate::rows::action_of;
use crate::ways::ways_of;
use game_form::{Action, Class, Game};
use indexmap::IndexSet;
use std::alloc::{AllocError, Global};
use word_core::{Automaton, Branch, Kind, Player};

/// Whether the side that moves first chooses the inputs.
fn has_inputs_first(player: Player, kind: Kind) -> bool
    ensures { result ≡ inputs_lead player kind }
{
    match (player, kind) {
        (Player::System, Kind::Second) => true,
        (Player::Environment, Kind::First) => true,
        (Player::System, Kind::First) => false,
        (Player::Environment, Kind::Second) => false,
    }
}

/// The game of an automaton for a player of this kind, with the bound `k`, from 0 to 10,000.
///
/// The automaton's signals, the inputs and the outputs, are at most 40. Letters between whose states the same edges lead
/// have one action, and valuations of the side that moves first that have the same options one class. Both are numbered
/// by what has them first.
pub fn make_game(
    alloc: Global,
    a: &Automaton,
    player: Player,
    kind: Kind,
    inputs: u32,
    outputs: u32,
    k: i16,
) -> Result<Game, AllocError>
    requires signals { a.now.signals ≡ inputs + outputs }
    requires narrow { inputs + outputs ≤ 40 }
    requires low { pos 0 ≤ℤ k }
    requires high { k ≤ℤ pos 10000 }
    ensures player { IfOk result (λ g. g.player ≡ player) }
    ensures kind { IfOk result (λ g. g.kind ≡ kind) }
    ensures inputs { IfOk result (λ g. g.inputs ≡ inputs) }
    ensures outputs { IfOk result (λ g. g.outputs ≡ outputs) }
    ensures k { IfOk result (λ g. g.k ≡ k) }
    ensures init { IfOk result (λ g. g.init ≡ a.now.init) }
    ensures lanes { IfOk result (λ g. lanes g ≡ length a.now.states) }
    ensures letters { IfOk result HasLetters }
    ensures covers { IfOk result CoversLetters }
    ensures rows { IfOk result (HasRows a.now) }
    ensures grouped { IfOk result (IsGroupedGame a.now player kind inputs outputs k) }
{
    let order = Order {
        inputs,
        outputs,
        inputs_first: has_inputs_first(player, kind),
    };
    let parts = parts_of(alloc, a, order)?;
    Ok(Game::make(
        player,
        kind,
        inputs,
        outputs,
        k,
        a.init(),
        parts.actions,
        parts.classes,
        parts.letters,
        parts.firsts,
    ))
}

/// The parts of a game.
#[derive(Drop)]
pub struct Parts {
    pub actions: Vec<Action>,
    pub classes: Vec<Class>,
    pub letters: Vec<Branch>,
    pub firsts: Vec<Branch>,
}

/// The actions and classes of the letters, and their trees.
fn parts_of(alloc: Global, a: &Automaton, order: Order) -> Result<Parts, AllocError>
    requires signals { a.now.signals ≡ order.inputs + order.outputs }
    ensures rows { IfOk result (HasPartRows order.inputs order.outputs order.inputs_first a.now) }
    ensures parts { IfOk result (AreParts (length a.now.states) (order.inputs + order.outputs) (leads order)) }
    ensures letters { IfOk result (HasLetterParts (leads order)) }
    ensures same { IfOk result (HasSameActions order.inputs order.outputs order.inputs_first a.now) }
    ensures numbered { IfOk result (AreNumbered order.inputs order.outputs order.inputs_first) }
{
    let count = a.states().len();
    let mut letters = Letters {
        nodes: Vec::new(alloc),
        effects: IndexSet::new(alloc),
        memo: Memo::new(alloc),
    };
    let mut firsts = Firsts {
        nodes: Vec::new(alloc),
        options: IndexSet::new(alloc),
        memo: Memo::new(alloc),
    };
    let ways = ways_of(alloc, a)?;
    let pairs = split_first(alloc, &ways, count, order, 0, &mut letters, &mut firsts)?;
    numbered(alloc, letters, firsts, pairs, order, count)
}

/// The parts with actions and classes in order.
fn numbered(
    alloc: Global,
    letters: Letters,
    firsts: Firsts,
    pairs: Vec<(u64, u64)>,
    order: Order,
    count: usize,
) -> Result<Parts, AllocError>
    requires narrow { count < 2 ^ 32 }
    requires letter_nodes { AreNodes (order.inputs + order.outputs) (length letters.effects.keys) letters.nodes.items }
    requires some_letter { 0 < length letters.nodes.items }
    requires effects { All (λ e. AreSteps count e.items) letters.effects.keys }
    requires nodes { AreNodes (leads order) (length firsts.options.keys) firsts.nodes.items }
    requires some_first { 0 < length firsts.nodes.items }
    requires options { AreOptions (order.inputs + order.outputs - leads order) (length letters.effects.keys) firsts.options.keys }
    requires pairs { ArePairs (leads order) (length firsts.options.keys) pairs.items }
    requires some { 0 < length pairs.items }
    requires labelled { IsLabelled 0 (label_of firsts.nodes.items) pairs.items }
    requires chosen { HasOptions (leads order) (label_of letters.nodes.items) (label_of firsts.nodes.items) firsts.options.keys }
    ensures rows { IfOk result (HasEffectRows count letters.nodes.items letters.effects.keys) }
    ensures parts { IfOk result (AreParts count (order.inputs + order.outputs) (leads order)) }
    ensures letters { IfOk result (HasLetterParts (leads order)) }
    ensures same { IfOk result (HasSameLabels letters.nodes.items letters.effects.keys) }
    ensures numbered { IfOk result (AreNumbered order.inputs order.outputs order.inputs_first) }
{
    let Firsts { nodes, options, .. } = firsts;
    let whole = order.width();
    let width = order.leads();
    let effects = letters.effects.len();
    let lists = options.len();
    let classes = rank(alloc, pairs, width, lists)?;
    let met = met_letters(alloc, order, &classes.order, &options, effects)?;
    let labels = rank(alloc, met, 64, effects)?;
    let second = whole - width;
    let last = labels.order.len();
    Ok(Parts {
        actions: actions(alloc, &letters, &labels, count)?,
        classes: class_list(alloc, &options, &classes, &labels, width, second, effects)?,
        letters: relabelled(alloc, &letters.nodes, &labels.numbers, whole, last)?,
        firsts: relabelled(alloc, &nodes, &classes.numbers, width, classes.order.len())?,
    })
}

/// The actions in the order of their least letters.
fn actions(
    alloc: Global,
    letters: &Letters,
    labels: &Ranked,
    count: usize,
) -> Result<Vec<Action>, AllocError>
    requires labels { IsRanked 64 (length letters.now.effects.keys) labels.now }
    requires effects { All (λ e. AreSteps count e.items) letters.now.effects.keys }
    requires narrow { count < 2 ^ 32 }
    ensures len { IfOk result (λ v. length v.items ≡ length labels.now.order.items) }
    ensures rows { IfOk result (λ v. All (AreRows count) v.items) }
    ensures numbers { IfOk result (λ v. AreActionsOf count letters.now.effects.keys (length labels.now.order.items) labels.now.order.items v.items) }
{
    let mut actions = Vec::with_capacity(alloc, labels.order.len())?;
    for (_, label) in &labels.order {
        let steps = &letters.effects.as_slice()[*label as usize];
        actions.push(action_of(alloc, steps, count)?)?;
    }
    Ok(actions)
}

/// The options with the numbers of their actions.
fn options_of(
    alloc: Global,
    options: &[(u64, u64)],
    numbers: &[u64],
    second: u32,
    count: usize,
) -> Result<Vec<(u64, u64)>, AllocError>
    requires options { ArePairs second (length numbers.now) options.now }
    requires numbers { All (λ n. n < count) numbers.now }
    ensures len { IfOk result (λ v. length v.items ≡ length options.now) }
    ensures options { IfOk result (λ v. All (λ o. (o.0 < count) × (o.1 < 2 ^ second)) v.items) }
    ensures value { IfOk result (λ v. v.items ≡ with_numbers numbers.now options.now) }
{
    let mut out = Vec::with_capacity(alloc, options.len())?;
    for (value, label) in options {
        out.push((numbers[*label as usize], *value))?;
    }
    Ok(out)
}

/// The classes in the order of their least valuations.
fn class_list(
    alloc: Global,
    lists: &IndexSet<Vec<(u64, u64)>>,
    classes: &Ranked,
    labels: &Ranked,
    width: u32,
    second: u32,
    count: usize,
) -> Result<Vec<Class>, AllocError>
    requires classes { IsRanked width (length lists.now.keys) classes.now }
    requires labels { IsRanked 64 count labels.now }
    requires options { AreOptions second count lists.now.keys }
    ensures len { IfOk result (λ v. length v.items ≡ length classes.now.order.items) }
    ensures classes { IfOk result (λ v. All (IsListedClass width second (length labels.now.order.items)) v.items) }
    ensures value { IfOk result (λ v. v.items ≡ map (class_from lists.now.keys labels.now.numbers.items) classes.now.order.items) }
{
    let mut out = Vec::with_capacity(alloc, classes.order.len())?;
    for (least, label) in &classes.order {
        let options = &lists.as_slice()[*label as usize];
        out.push(Class {
            least: *least,
            options: options_of(alloc, options, &labels.numbers, second, labels.order.len())?,
        })?;
    }
    Ok(out)
}
