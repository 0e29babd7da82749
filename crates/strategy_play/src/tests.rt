//! Machines of two games of two lanes.

ghost use Rattle.std.specs.Prelude.{◌≡◌, ◌∷◌, [], IfOk};
ghost use Rattle.word_core.specs.declared.branches.Branch.TheVariants.{Split};
ghost use Rattle.strategy_play.specs.Example.{step_of, action_to, one_class, turns_game, led_game, in_lanes};

use crate::extract;
use antichain_list::ListDownset;
use counter_vec::Counters;
use game_form::{Action, Class, Game, Row, Step};
use std::alloc::Global;
use std::test::Fail;
use word_core::{Branch, Kind, Player};

fn row(alloc: Global, to: u32, number: i16) -> Result<Row, Fail>
    ensures { IfOk result (λ r. r ≡ step_of to number ∷ []) }
{
    Ok(Row {
        steps: vec![in alloc; Step { to, number }]?,
    })
}

fn action(alloc: Global, to: u32, first: i16, second: i16) -> Result<Action, Fail>
    ensures { IfOk result (λ a. a ≡ action_to to first second) }
{
    let (zero, one) = (row(alloc, to, first)?, row(alloc, to, second)?);
    Ok(Action {
        rows: vec![in alloc; zero, one]?,
    })
}

fn class(alloc: Global) -> Result<Class, Fail>
    ensures { IfOk result (λ c. c ≡ one_class) }
{
    Ok(Class {
        least: 0,
        options: vec![in alloc; (1, 0), (0, 1)]?,
    })
}

fn turns(alloc: Global) -> Result<Game, Fail>
    ensures { IfOk result (λ g. g ≡ turns_game) }
{
    let (one, zero) = (action(alloc, 1, 1, 2)?, action(alloc, 0, 2, 1)?);
    Ok(Game::make(
        Player::System,
        Kind::Second,
        1,
        1,
        0,
        Some(0),
        vec![in alloc; one, zero]?,
        vec![in alloc; class(alloc)?]?,
        vec![in alloc; Branch::Leaf(1), Branch::Leaf(0), split(1, 0, 1)]?,
        vec![in alloc; Branch::Leaf(0)]?,
    ))
}

fn downset(alloc: Global) -> Result<ListDownset<Counters>, Fail>
    ensures { IfOk result (λ d. d ≡ in_lanes) }
{
    let one = Counters::from_lanes(vec![in alloc; -1, 0]?);
    let zero = Counters::from_lanes(vec![in alloc; 0, -1]?);
    Ok(ListDownset::from_entries(vec![in alloc; one, zero]?))
}

fn led_actions(alloc: Global) -> Result<Vec<Action>, Fail>
    ensures { IfOk result (λ v. v.items ≡ led_game.actions) }
{
    let one = action(alloc, 1, 1, 1)?;
    let zero = action(alloc, 0, 1, 1)?;
    let counted = action(alloc, 0, 2, 2)?;
    Ok(vec![in alloc; one, zero, counted]?)
}

fn led_classes(alloc: Global) -> Result<Vec<Class>, Fail>
    ensures { IfOk result (λ v. v.items ≡ led_game.classes) }
{
    let fails = Class {
        least: 0,
        options: vec![in alloc; (2, 0)]?,
    };
    let works = Class {
        least: 1,
        options: vec![in alloc; (0, 0), (1, 1)]?,
    };
    Ok(vec![in alloc; fails, works]?)
}

fn split(signal: u32, low: u64, high: u64) -> Branch
    ensures { result ≡ Split signal low high }
{
    Branch::Split { signal, low, high }
}

fn led(alloc: Global) -> Result<Game, Fail>
    ensures { IfOk result (λ g. g ≡ led_game) }
{
    let (two, zero, one) = (Branch::Leaf(2), Branch::Leaf(0), Branch::Leaf(1));
    Ok(Game::make(
        Player::System,
        Kind::First,
        1,
        1,
        0,
        Some(0),
        led_actions(alloc)?,
        led_classes(alloc)?,
        vec![in alloc; two, zero, one, split(1, 1, 2), split(0, 0, 3)]?,
        vec![in alloc; zero, one, split(0, 0, 1)]?,
    ))
}

#[test]
fn takes_turns(rt: HostRuntime) -> Result<(), Fail> {
    let alloc = rt.alloc();
    let machine = extract(alloc, &turns(alloc)?, &downset(alloc)?)?;
    assert_eq!(rt; machine.states().len(), 2);
    let (own, next) = machine.step(0, 0);
    assert_eq!(rt; (own, next), (1, 1));
    assert_eq!(rt; machine.step(next, 1), (0, 0));
    Ok(())
}

#[test]
fn chooses_first(rt: HostRuntime) -> Result<(), Fail> {
    let alloc = rt.alloc();
    let machine = extract(alloc, &led(alloc)?, &downset(alloc)?)?;
    assert_eq!(rt; machine.states().len(), 2);
    let (own, next) = machine.step(0, 0);
    assert_eq!(rt; (own, next), (1, 1));
    assert_eq!(rt; machine.step(0, 1), (1, 0));
    assert_eq!(rt; machine.step(next, 0), (1, 1));
    assert_eq!(rt; machine.step(next, 1), (1, 0));
    Ok(())
}
