//! Games.

ghost use Rattle.std.specs.Prelude.{◌≡◌, ◌<◌, ◌≤◌, ◌+◌, ◌*◌, ◌^◌, ◌≤ℤ◌, pos, length, slice_index_or};

use crate::actions::{Action, Row};
use crate::classes::Class;
use std::marker::Model;
use word_core::{Branch, Kind, Player, walk};

/// A safety game over the lanes of an automaton, whose counters may go up to a bound.
#[derive(Debug, Drop)]
pub struct Game {
    player: Player,
    kind: Kind,
    inputs: u32,
    outputs: u32,
    k: i16,
    init: Option<u32>,
    actions: Vec<Action>,
    classes: Vec<Class>,
    letters: Vec<Branch>,
    firsts: Vec<Branch>,
}

impl Model for Game {
    ghost use Rattle.game_form.specs.Game.{GameData, IsGame};

    ghost Value = { GameData };

    ghost view = { λ g. record {
      player = g.player;
      kind = g.kind;
      inputs = g.inputs;
      outputs = g.outputs;
      k = g.k;
      init = g.init;
      actions = g.actions.items;
      classes = g.classes.items;
      letters = g.letters.items;
      firsts = g.firsts.items;
    } };

    ghost invariant = { λ g. IsGame (record {
      player = g.player;
      kind = g.kind;
      inputs = g.inputs;
      outputs = g.outputs;
      k = g.k;
      init = g.init;
      actions = g.actions.items;
      classes = g.classes.items;
      letters = g.letters.items;
      firsts = g.firsts.items;
    }) };
}

impl Game {
    ghost use Rattle.game_form.specs.Game.{IsGame, IsAction, IsClass, IsRow, lanes, action_at, class_at, row_at, no_class, first_width, second_width, own_width, other_width, letter_of, action_of, class_of};

    /// The game of these parts.
    pub fn make(
        player: Player,
        kind: Kind,
        inputs: u32,
        outputs: u32,
        k: i16,
        init: Option<u32>,
        actions: Vec<Action>,
        classes: Vec<Class>,
        letters: Vec<Branch>,
        firsts: Vec<Branch>,
    ) -> Game
        requires { IsGame (record {
          player = player;
          kind = kind;
          inputs = inputs;
          outputs = outputs;
          k = k;
          init = init;
          actions = actions.items;
          classes = classes.items;
          letters = letters.items;
          firsts = firsts.items;
        }) }
        ensures { result ≡ record {
          player = player;
          kind = kind;
          inputs = inputs;
          outputs = outputs;
          k = k;
          init = init;
          actions = actions.items;
          classes = classes.items;
          letters = letters.items;
          firsts = firsts.items;
        } }
    {
        Game {
            player,
            kind,
            inputs,
            outputs,
            k,
            init,
            actions,
            classes,
            letters,
            firsts,
        }
    }

    /// The same game with another bound, from 0 to 10,000.
    pub fn with_bound(self, k: i16) -> Game
        requires low { pos 0 ≤ℤ k }
        requires high { k ≤ℤ pos 10000 }
        ensures { result ≡ record self { k = k } }
    {
        let Game {
            player,
            kind,
            inputs,
            outputs,
            k: _,
            init,
            actions,
            classes,
            letters,
            firsts,
        } = self;
        Game {
            player,
            kind,
            inputs,
            outputs,
            k,
            init,
            actions,
            classes,
            letters,
            firsts,
        }
    }

    /// Whose game it is.
    pub fn player(&self) -> Player
        ensures { result ≡ self.now.player }
    {
        self.player
    }

    /// Whether the player's choice may depend on the other's.
    pub fn kind(&self) -> Kind
        ensures { result ≡ self.now.kind }
    {
        self.kind
    }

    /// The number of inputs.
    pub fn inputs(&self) -> u32
        ensures { result ≡ self.now.inputs }
    {
        self.inputs
    }

    /// The number of outputs.
    pub fn outputs(&self) -> u32
        ensures { result ≡ self.now.outputs }
    {
        self.outputs
    }

    /// The bound, from 0 to 10,000.
    pub fn k(&self) -> i16
        ensures bound { result ≡ self.now.k }
        ensures low { pos 0 ≤ℤ result }
        ensures high { result ≤ℤ pos 10000 }
    {
        self.k
    }

    /// The first lane, if there is one.
    pub fn init(&self) -> Option<u32>
        ensures { result ≡ self.now.init }
    {
        self.init
    }

    /// All that is known of a game.
    pub fn known(&self)
        ensures { IsGame self.now }
    {
        let _ = &self.actions;
    }

    /// The actions by number, at least one.
    pub fn actions(&self) -> &[Action]
        ensures { result.now ≡ self.now.actions }
    {
        &self.actions
    }

    /// The classes by number, at least one.
    pub fn classes(&self) -> &[Class]
        ensures { result.now ≡ self.now.classes }
    {
        &self.classes
    }

    /// A decision tree from letters, the first mover's signals first, to actions.
    pub fn letters(&self) -> &[Branch]
        ensures { result.now ≡ self.now.letters }
    {
        &self.letters
    }

    /// A decision tree from the first mover's valuations to classes.
    pub fn firsts(&self) -> &[Branch]
        ensures { result.now ≡ self.now.firsts }
    {
        &self.firsts
    }

    /// The number of lanes.
    pub fn lanes(&self) -> usize
        ensures { result ≡ lanes self.now }
    {
        self.actions[0].rows.len()
    }

    /// The action of this number.
    pub fn action(&self, a: u64) -> &Action
        requires { a < length self.now.actions }
        ensures value { result.now ≡ action_at self.now a }
        ensures known { IsAction (lanes self.now) result.now }
    {
        &self.actions[a as usize]
    }

    /// The row of a lane under an action.
    pub fn row(&self, a: u64, q: usize) -> &Row
        requires action { a < length self.now.actions }
        requires lane { q < lanes self.now }
        ensures value { result.now ≡ row_at (action_at self.now a) q }
        ensures known { IsRow (lanes self.now) 0 result.now }
    {
        let action = self.action(a);
        &action.rows[q]
    }

    /// The class of this number.
    pub fn class(&self, c: u64) -> &Class
        requires { c < length self.now.classes }
        ensures value { result.now ≡ class_at self.now c }
        ensures known { IsClass self.now result.now }
    {
        &self.classes[c as usize]
    }

    /// The number of the player's own signals.
    pub fn own_width(&self) -> u32
        ensures { result ≡ own_width self.now }
    {
        match self.player {
            Player::System => self.outputs,
            Player::Environment => self.inputs,
        }
    }

    /// The number of the other side's signals.
    pub fn other_width(&self) -> u32
        ensures { result ≡ other_width self.now }
    {
        match self.player {
            Player::System => self.inputs,
            Player::Environment => self.outputs,
        }
    }

    /// The number of signals of the side that moves first.
    pub fn first_width(&self) -> u32
        ensures { result ≡ first_width self.now }
    {
        match self.kind {
            Kind::First => self.own_width(),
            Kind::Second => self.other_width(),
        }
    }

    /// The number of signals of the side that moves second.
    pub fn second_width(&self) -> u32
        ensures { result ≡ second_width self.now }
    {
        match self.kind {
            Kind::First => self.other_width(),
            Kind::Second => self.own_width(),
        }
    }

    /// The action of a letter, given by the player's part and the other's.
    pub fn action_of(&self, own: u64, other: u64) -> u64
        requires own { own < 2 ^ own_width self.now }
        requires other { other < 2 ^ other_width self.now }
        ensures value { result ≡ action_of self.now own other }
        ensures known { result < length self.now.actions }
    {
        walk(&self.letters, self.letter(own, other))
    }

    /// The letter of the player's part and the other's, as the tree of actions reads it.
    pub fn letter(&self, own: u64, other: u64) -> u64
        requires own { own < 2 ^ own_width self.now }
        requires other { other < 2 ^ other_width self.now }
        ensures value { result ≡ letter_of self.now own other }
        ensures range { result < 2 ^ (self.now.inputs + self.now.outputs) }
    {
        let (own_signals, other_signals) = (self.own_width(), self.other_width());
        match self.kind {
            Kind::First => joined(own, own_signals, other, other_signals),
            Kind::Second => joined(other, other_signals, own, own_signals),
        }
    }

    /// The class of a valuation of the first mover.
    pub fn class_of(&self, first: u64) -> u64
        requires { first < 2 ^ first_width self.now }
        ensures value { result ≡ class_of self.now first }
        ensures known { result < length self.now.classes }
    {
        walk(&self.firsts, first)
    }
}

/// One valuation of the low signals, and of the high signals above them.
fn joined(low: u64, low_width: u32, high: u64, high_width: u32) -> u64
    requires low { low < 2 ^ low_width }
    requires high { high < 2 ^ high_width }
    requires width { low_width + high_width ≤ 40 }
    ensures value { result ≡ low + high * 2 ^ low_width }
    ensures range { result < 2 ^ (low_width + high_width) }
{
    low + (high << low_width)
}
