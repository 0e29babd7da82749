//! Boards and worlds of a game of two lanes.

ghost use Rattle.std.specs.Prelude.{◌≡◌, IfOk};
ghost use Rattle.word_core.specs.declared.branches.Branch.TheVariants.{Split};
ghost use Rattle.game_core.specs.Example.{counted, wire_game};

use crate::{Board, Committed, Event, Played, Solved, World, finish, solve_logged, work};
use antichain_list::ListDownset;
use counter_vec::Counters;
use game_form::{Action, Class, Game, Row, Step};
use std::alloc::Global;
use std::sync::Arc;
use std::test::Fail;
use word_core::{Branch, Kind, Player};

fn counted_row(alloc: Global) -> Result<Row, Fail>
    ensures { IfOk result (λ r. r ≡ counted) }
{
    Ok(Row {
        steps: vec![in alloc; Step { to: 1, number: 2 }]?,
    })
}

fn wire_actions(alloc: Global) -> Result<Vec<Action>, Fail>
    ensures { IfOk result (λ v. v.items ≡ wire_game.actions) }
{
    let stays = Row {
        steps: Vec::new(alloc),
    };
    let equal = Action {
        rows: vec![in alloc; stays, counted_row(alloc)?]?,
    };
    let differ = Action {
        rows: vec![in alloc; counted_row(alloc)?, counted_row(alloc)?]?,
    };
    Ok(vec![in alloc; equal, differ]?)
}

fn wire_classes(alloc: Global) -> Result<Vec<Class>, Fail>
    ensures { IfOk result (λ v. v.items ≡ wire_game.classes) }
{
    let low = Class {
        least: 0,
        options: vec![in alloc; (0, 0), (1, 1)]?,
    };
    let high = Class {
        least: 1,
        options: vec![in alloc; (1, 0), (0, 1)]?,
    };
    Ok(vec![in alloc; low, high]?)
}

fn split(signal: u32, low: u64, high: u64) -> Branch
    ensures { result ≡ Split signal low high }
{
    Branch::Split { signal, low, high }
}

fn wire(alloc: Global) -> Result<Game, Fail>
    ensures { IfOk result (λ g. g ≡ wire_game) }
{
    let (zero, one) = (Branch::Leaf(0), Branch::Leaf(1));
    Ok(Game::make(
        Player::System,
        Kind::Second,
        1,
        1,
        0,
        Some(0),
        wire_actions(alloc)?,
        wire_classes(alloc)?,
        vec![in alloc; zero, one, split(0, 0, 1), split(0, 1, 0), split(1, 2, 3)]?,
        vec![in alloc; zero, one, split(0, 0, 1)]?,
    ))
}

/// Claims with number 0, works and commits.
fn next(alloc: Global, b: &mut Board) -> Result<Option<Committed>, Fail> {
    let Some(job) = b.claim(alloc, 0)? else {
        return Ok(None);
    };
    Ok(Some(b.commit(alloc, work(alloc, &job)?)?))
}

/// Whether a list has one entry, which is in lane 0.
fn is_in_first(list: &ListDownset<Counters>) -> bool {
    let entries = list.entries();
    entries.len() == 1 && entries[0].lanes() == [0, -1].as_slice()
}

fn is_held_in_first(solved: &Solved) -> bool {
    match solved {
        Solved::Held(list) => is_in_first(list),
        Solved::Lost => false,
    }
}

#[test]
fn replaces_and_marks(rt: HostRuntime) -> Result<(), Fail> {
    let alloc = rt.alloc();
    let mut b = Board::open(alloc, Arc::new(alloc, wire(alloc)?)?)?;
    assert_eq!(rt; next(alloc, &mut b)?, Some(Committed::Replaced));
    assert_eq!(rt; next(alloc, &mut b)?, Some(Committed::Fresh));
    assert_eq!(rt; next(alloc, &mut b)?, None);
    assert!(rt; !b.lost());
    assert!(rt; is_in_first(b.entries()));
    assert!(rt; is_held_in_first(&finish(alloc, b, false)?));
    Ok(())
}

#[test]
fn goes_on_from_a_list(rt: HostRuntime) -> Result<(), Fail> {
    let alloc = rt.alloc();
    let g = Arc::new(alloc, wire(alloc)?)?;
    let opened = Board::open(alloc, Arc::try_clone(&g)?)?;
    opened.known();
    let list = opened.entries().copy(alloc)?;
    let b = Board::resume(alloc, g, list)?;
    assert!(rt; is_held_in_first(&finish(alloc, b, true)?));
    Ok(())
}

#[test]
fn writes_the_journal(rt: HostRuntime) -> Result<(), Fail> {
    let alloc = rt.alloc();
    let (solved, steps) = solve_logged(alloc, wire(alloc)?, true)?;
    assert!(rt; is_held_in_first(&solved));
    assert_eq!(rt; steps.len(), 1);
    for step in &steps {
        assert_eq!(rt; step.taken.lanes(), [0, 0].as_slice());
        assert_eq!(rt; step.put.len(), 1);
        for v in &step.put {
            assert_eq!(rt; v.lanes(), [0, -1].as_slice());
        }
    }
    Ok(())
}

#[test]
fn plays_two_workers(rt: HostRuntime) -> Result<(), Fail> {
    let alloc = rt.alloc();
    let g = Arc::new(alloc, wire(alloc)?)?;
    let events = [
        Event::Draw { worker: 0 },
        Event::Draw { worker: 1 },
        Event::Claim { worker: 1 },
        Event::Claim { worker: 0 },
        Event::Commit { worker: 0 },
        Event::Commit { worker: 1 },
        Event::Commit { worker: 1 },
    ];
    let (world, said) = World::replay(alloc, g, 2, &events)?;
    let want = [
        Played::Drawn(0),
        Played::Drawn(1),
        Played::Claimed,
        Played::Claimed,
        Played::Done(Committed::Replaced),
        Played::Done(Committed::Gone),
        Played::Idle,
    ];
    assert_eq!(rt; said.as_slice(), want.as_slice());
    assert!(rt; is_in_first(world.board().entries()));
    Ok(())
}
