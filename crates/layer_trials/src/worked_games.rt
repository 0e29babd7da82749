//! Worked answers of the layers on three small games.

ghost use Rattle.std.specs.Prelude.{IfOk, true};
ghost use Rattle.game_core.specs.Solved.{IsSettled};
ghost use Rattle.game_form.specs.Letters.{HasLetters};

use crate::layer_vectors::{list_of, vector_of};
use action_groups::make_game;
use antichain_list::ListDownset;
use counter_vec::Counters;
use cpre_step::{Refined, pre_below};
use game_core::{Board, Committed, Solved, finish, solve, solve_alone, work};
use game_form::Game;
use std::alloc::{AllocError, Global};
use std::process::Abort;
use std::sync::Arc;
use std::test::Fail;
use word_core::{Automaton, Cube, Edge, Kind, Player, State};

fn edge(care: u64, want: u64, next: u32, marked: bool) -> Edge {
    Edge {
        cube: Cube { care, want },
        next,
        marked,
    }
}

/// The game of these states, the first one being state 0, over one input and one output.
fn game_of(
    rt: &impl Abort,
    alloc: Global,
    states: Vec<State>,
    player: Player,
    kind: Kind,
    k: u8,
) -> Result<Game, Fail>
    ensures { IfOk result HasLetters }
{
    assert!(rt; states.len() < 1 << 32);
    let made = Automaton::make(2, states, Some(0));
    let a = made.ok_or("an edge without an end")?;
    Ok(make_game(alloc, &a, player, kind, 1, 1, k as i16)?)
}

/// Each request is followed by a grant: the system's game.
fn response(rt: &impl Abort, alloc: Global) -> Result<Game, Fail> {
    let first = State {
        edges: vec![in alloc; edge(0, 0, 0, false), edge(3, 1, 1, true)]?,
    };
    let waiting = State {
        edges: vec![in alloc; edge(2, 0, 1, true)]?,
    };
    let states = vec![in alloc; first, waiting]?;
    game_of(rt, alloc, states, Player::System, Kind::Second, 0)
}

/// The output is the input: the system's game.
fn wire(rt: &impl Abort, alloc: Global) -> Result<Game, Fail> {
    let first = State {
        edges: vec![in alloc;
            edge(0, 0, 0, false),
            edge(3, 1, 1, true),
            edge(3, 2, 1, true),
        ]?,
    };
    let failed = State {
        edges: vec![in alloc; edge(0, 0, 1, true)]?,
    };
    let states = vec![in alloc; first, failed]?;
    game_of(rt, alloc, states, Player::System, Kind::Second, 0)
}

/// The output is the next input: the environment's game.
fn ahead(rt: &impl Abort, alloc: Global, k: u8) -> Result<Game, Fail>
    ensures { IfOk result HasLetters }
{
    let first = State {
        edges: vec![in alloc; edge(2, 2, 1, true), edge(2, 0, 2, true)]?,
    };
    let high = State {
        edges: vec![in alloc; edge(3, 3, 1, true), edge(3, 1, 2, true)]?,
    };
    let low = State {
        edges: vec![in alloc; edge(3, 2, 1, true), edge(3, 0, 2, true)]?,
    };
    let states = vec![in alloc; first, high, low]?;
    game_of(rt, alloc, states, Player::Environment, Kind::First, k)
}

#[test]
fn steps_of_vectors(rt: HostRuntime) -> Result<(), Fail> {
    let alloc = rt.alloc();
    let g = response(&rt, alloc)?;
    assert_eq!(rt; g.actions().len(), 3);
    let zero = vector_of(&rt, alloc, &g, &[0, 0])?;
    let alone = vector_of(&rt, alloc, &g, &[0, -1])?;
    assert_eq!(rt; zero.succ(alloc, &g, 2)?.lanes(), [0, -1].as_slice());
    let counted = zero.succ(alloc, &g, 0)?;
    assert_eq!(rt; counted.lanes(), [0, 1].as_slice());
    assert!(rt; counted.over(0));
    assert_eq!(rt; alone.pre(alloc, &g, 2)?.lanes(), [0, 0].as_slice());
    assert_eq!(rt; alone.pre(alloc, &g, 1)?.lanes(), [-1, -1].as_slice());
    let (top, initial) = (Counters::top(alloc, &g)?, Counters::initial(alloc, &g)?);
    assert_eq!(rt; top.lanes(), zero.lanes());
    assert_eq!(rt; initial.lanes(), alone.lanes());
    assert_eq!(rt; top.lanes().len(), initial.lanes().len());
    assert_eq!(rt; top.meet(alloc, &initial)?.lanes(), alone.lanes());
    assert_eq!(rt; zero.copy(alloc)?.lanes(), zero.lanes());
    Ok(())
}

/// What `pre_below` makes of (0, 0) and the list of it.
fn refined(rt: &impl Abort, alloc: Global, g: &Game) -> Result<Refined, Fail> {
    let zeros = vec![in alloc; vec![in alloc; 0, 0]?]?;
    let f = vector_of(rt, alloc, g, &[0, 0])?;
    let d = list_of(rt, alloc, g, &zeros)?;
    Ok(pre_below(alloc, g, &f, &d)?)
}

/// Whether only (0, -1) is left.
fn is_in_first(left: &[Counters]) -> bool {
    match left {
        [only] => only.lanes() == [0, -1].as_slice(),
        _ => false,
    }
}

#[test]
fn keeps_and_shrinks(rt: HostRuntime) -> Result<(), Fail> {
    let alloc = rt.alloc();
    let kept = match refined(&rt, alloc, &response(&rt, alloc)?)? {
        Refined::Kept => true,
        Refined::Shrunk(_) => false,
    };
    assert!(rt; kept);
    let shrunk = match refined(&rt, alloc, &wire(&rt, alloc)?)? {
        Refined::Kept => false,
        Refined::Shrunk(left) => is_in_first(&left),
    };
    assert!(rt; shrunk);
    Ok(())
}

#[test]
fn commits_two_jobs_of_one_entry(rt: HostRuntime) -> Result<(), Fail> {
    let alloc = rt.alloc();
    let mut b = Board::open(alloc, Arc::new(alloc, wire(&rt, alloc)?)?)?;
    let one = b.claim(alloc, 0)?.ok_or("no job")?;
    let two = b.claim(alloc, 0)?.ok_or("no job")?;
    assert_eq!(rt; one.entry().lanes(), [0, 0].as_slice());
    assert_eq!(rt; two.entry().lanes(), [0, 0].as_slice());
    let done = b.commit(alloc, work(alloc, &one)?)?;
    assert_eq!(rt; done, Committed::Replaced);
    let done = b.commit(alloc, work(alloc, &two)?)?;
    assert_eq!(rt; done, Committed::Gone);
    let last = b.claim(alloc, 0)?.ok_or("no job")?;
    let done = b.commit(alloc, work(alloc, &last)?)?;
    assert_eq!(rt; done, Committed::Fresh);
    assert!(rt; b.claim(alloc, 0)?.is_none());
    assert!(rt; !b.lost());
    Ok(())
}

/// Whether an answer is a list of two vectors.
fn is_pair(solved: &Solved, one: &[i16], two: &[i16]) -> bool {
    match solved {
        Solved::Held(list) => match list.entries() {
            [a, b] => a.lanes() == one && b.lanes() == two,
            _ => false,
        },
        Solved::Lost => false,
    }
}

#[test]
fn holds_three_lanes(rt: HostRuntime) -> Result<(), Fail> {
    let alloc = rt.alloc();
    let high = solve_alone(alloc, ahead(&rt, alloc, 2)?, true)?;
    assert!(rt; is_pair(&high, &[1, 1, 2], &[1, 2, 1]));
    let low = solve_alone(alloc, ahead(&rt, alloc, 1)?, true)?;
    assert!(rt; is_pair(&low, &[0, 0, 1], &[0, 1, 0]));
    let lost = match solve_alone(alloc, ahead(&rt, alloc, 0)?, false)? {
        Solved::Held(_) => false,
        Solved::Lost => true,
    };
    assert!(rt; lost);
    Ok(())
}

/// A board that begins with the answer for its game.
fn resumed(alloc: Global, g: Arc<Game>, list: ListDownset<Counters>) -> Result<Board, AllocError>
    requires letters { HasLetters g.value }
    requires settled { IsSettled g.value true list }
{
    Board::resume(alloc, g, list)
}

#[test]
fn goes_on_from_the_answer(rt: HostRuntime) -> Result<(), Fail> {
    let alloc = rt.alloc();
    let g = Arc::new(alloc, ahead(&rt, alloc, 2)?)?;
    let again = match solve(alloc, &g, true)? {
        Solved::Held(list) => finish(alloc, resumed(alloc, g, list)?, true)?,
        Solved::Lost => Solved::Lost,
    };
    assert!(rt; is_pair(&again, &[1, 1, 2], &[1, 2, 1]));
    Ok(())
}
