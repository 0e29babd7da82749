//! The lines of an entry.

ghost use Rattle.std.specs.Prelude.{◌≡◌, ◌<◌, ◌^◌, ℕ, true, length, map, IfOk, IsSome};
ghost use Rattle.std.specs.List.{All};
ghost use Rattle.word_core.specs.declared.names.Kind.TheVariants.{First, Second};
ghost use Rattle.word_core.specs.Cube.{IsCube};
ghost use Rattle.game_form.specs.Game.{own_width, other_width, class_at};
ghost use Rattle.game_form.specs.Vector.{IsVector};
ghost use Rattle.cpre_step.specs.Refinement.{answers};
ghost use Rattle.strategy_play.specs.Answer.{Answers};
ghost use Rattle.strategy_play.specs.Lead.{lead, next_at, pick, leader, LeadBelow};
ghost use Rattle.strategy_play.specs.Line.{line_by_class, line_by_action};
ghost use Rattle.strategy_play.specs.State.{IsState};

use crate::nexts::next_entries;
use crate::picks::{class_picks, leading_class, numbers_of, targets};
use crate::restrictions::restricted;
use antichain_list::ListDownset;
use counter_vec::Counters;
use game_form::Game;
use letter_tree::patterns;
use std::alloc::{AllocError, Global};
use word_core::{Cube, Kind, Line};

/// The lines of the state of entry `f`, each with an entry as its next.
pub fn lines_of(
    alloc: Global,
    g: &Game,
    d: &ListDownset<Counters>,
    f: &Counters,
) -> Result<Vec<Line>, AllocError>
    requires vector { IsVector g.now f.now }
    requires answered { answers g.now d.now f.now ≡ true }
    requires some { 0 < length d.now }
    ensures state { IfOk result (λ v. IsState g.now (length d.now) v.items) }
    ensures answers { IfOk result (λ v. Answers g.now (next_at g.now d.now f.now) (λ n. n) v.items) }
{
    g.known();
    let nexts = next_entries(alloc, g, d, f)?;
    match g.kind() {
        Kind::First => first_lines(alloc, g, &nexts),
        Kind::Second => second_lines(alloc, g, &nexts),
    }
}

/// The lines where the player sees the other's valuation: by its class.
fn second_lines(alloc: Global, g: &Game, nexts: &[Option<u64>]) -> Result<Vec<Line>, AllocError>
    requires kind { g.now.kind ≡ Second }
    requires count { length nexts.now ≡ length g.now.actions }
    requires some { (c : ℕ) → c < length g.now.classes → IsSome (pick (lead nexts.now) (class_at g.now c).options) }
    ensures state { IfOk result (λ v. (count : ℕ) → LeadBelow count nexts.now → IsState g.now count v.items) }
    ensures answers { IfOk result (λ v. Answers g.now (lead nexts.now) (λ n. n) v.items) }
{
    g.known();
    let picks = class_picks(alloc, g, nexts)?;
    let numbers = numbers_of(alloc, &picks)?;
    let tree = restricted(alloc, g.firsts(), &numbers, 0, 0, g.other_width())?;
    let cubes = patterns(alloc, &tree)?;
    lines_by_class(alloc, g, &picks, &cubes)
}

/// The lines of these cubes by the picks of their classes.
fn lines_by_class(
    alloc: Global,
    g: &Game,
    picks: &[(u64, u64)],
    cubes: &[(Cube, u64)],
) -> Result<Vec<Line>, AllocError>
    requires kind { g.now.kind ≡ Second }
    requires picks { length picks.now ≡ length g.now.classes }
    requires cubes { All (λ p. IsCube (other_width g.now) p.0) cubes.now }
    ensures { IfOk result (λ v. v.items ≡ map (line_by_class g.now picks.now) cubes.now) }
{
    let mut out = Vec::with_capacity(alloc, cubes.len())?;
    for (cube, _) in cubes {
        let (own, next) = picks[g.class_of(cube.want) as usize];
        out.push(Line {
            when: *cube,
            own,
            next,
        })?;
    }
    Ok(out)
}

/// The lines where the player chooses first: all with one own valuation, by the actions that it makes.
fn first_lines(alloc: Global, g: &Game, nexts: &[Option<u64>]) -> Result<Vec<Line>, AllocError>
    requires kind { g.now.kind ≡ First }
    requires count { length nexts.now ≡ length g.now.actions }
    requires some { IsSome (leader (lead nexts.now) g.now.classes) }
    ensures state { IfOk result (λ v. (count : ℕ) → 0 < count → LeadBelow count nexts.now → IsState g.now count v.items) }
    ensures answers { IfOk result (λ v. Answers g.now (lead nexts.now) (λ n. n) v.items) }
{
    g.known();
    let class = g.class(leading_class(g, nexts));
    let targets = targets(alloc, g, nexts, class)?;
    let own = class.least;
    let tree = restricted(
        alloc,
        g.letters(),
        &targets,
        g.own_width(),
        own,
        g.other_width(),
    )?;
    let cubes = patterns(alloc, &tree)?;
    lines_by_action(alloc, g, own, &targets, &cubes)
}

/// The lines of these cubes with an own valuation, by the actions that it makes.
fn lines_by_action(
    alloc: Global,
    g: &Game,
    own: u64,
    targets: &[u64],
    cubes: &[(Cube, u64)],
) -> Result<Vec<Line>, AllocError>
    requires own { own < 2 ^ own_width g.now }
    requires targets { length targets.now ≡ length g.now.actions }
    requires cubes { All (λ p. IsCube (other_width g.now) p.0) cubes.now }
    ensures { IfOk result (λ v. v.items ≡ map (line_by_action g.now own targets.now) cubes.now) }
{
    let mut out = Vec::with_capacity(alloc, cubes.len())?;
    for (cube, _) in cubes {
        let next = targets[g.action_of(own, cube.want) as usize];
        out.push(Line {
            when: *cube,
            own,
            next,
        })?;
    }
    Ok(out)
}
