//! What the grouping of letters and valuations fixes.

ghost use Rattle.action_groups.specs.Grouped.{HasSameSides, IsGrouped, AreAlike};

use game_form::Game;
use word_core::Automaton;

/// Two games of one automaton whose actions and classes are numbered by what has them first, with the same player, kind
/// and signals, have the same actions, classes and options: this fixes all but the shapes of their two trees.
pub fn grouping_is_one(a: &Automaton, g: &Game, h: &Game)
    requires sides { HasSameSides g.now h.now }
    requires one { IsGrouped a.now g.now }
    requires other { IsGrouped a.now h.now }
    ensures { AreAlike a.now g.now h.now }
{
    g.known();
    h.known();
}
