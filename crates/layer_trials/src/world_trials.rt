//! Boards with workers, whose snapshots may be stale, and the answer of one thread, beside the set of all vectors that
//! can be held.

ghost use Rattle.std.specs.Prelude.{◌≡◌};
ghost use Rattle.game_core.specs.World.{worker_of};

use crate::draws::Draws;
use crate::slow_games::{Sizes, Trial, held};
use crate::slow_vectors::{all_vectors, is_covered, is_list, maximal, members, plain};
use counter_vec::Counters;
use game_core::{Committed, Event, Played, Solved, World, solve_alone};
use std::alloc::{AllocError, Global};
use std::process::Abort;
use std::sync::Arc;
use std::test::Fail;

/// How many lists of events are played.
const CASES: u64 = 1000;

/// How large the games may be of which all vectors are tried.
const SIZES: Sizes = Sizes {
    states: 3,
    signals: 3,
    k: 2,
};

/// How large the games that are played may be.
const PLAYED: Sizes = Sizes {
    states: 5,
    signals: 3,
    k: 2,
};

/// The maximal vectors that can be held.
fn held_list(alloc: Global, trial: &Trial) -> Result<Vec<Vec<i16>>, AllocError> {
    let vectors = all_vectors(alloc, trial.lanes(), trial.k)?;
    let answers = held(alloc, trial, &vectors)?;
    maximal(alloc, &members(alloc, &vectors, &answers)?)
}

/// Whether an answer is this list.
fn is_held(solved: &Solved, list: &[Vec<i16>]) -> bool {
    match solved {
        Solved::Held(found) => is_list(found.entries(), list),
        Solved::Lost => false,
    }
}

fn is_lost(solved: &Solved) -> bool {
    match solved {
        Solved::Held(_) => false,
        Solved::Lost => true,
    }
}

#[test]
fn solves_alone(rt: HostRuntime) -> Result<(), Fail> {
    let alloc = rt.alloc();
    let mut lost = 0u64;
    for case in 0..CASES {
        let trial = Trial::draw(&rt, alloc, &mut Draws::of_case(case), SIZES)?;
        let list = held_list(alloc, &trial)?;
        let whole = solve_alone(alloc, trial.game(&rt, alloc)?, true)?;
        assert!(rt; is_held(&whole, &list), "case {case}");
        let g = trial.game(&rt, alloc)?;
        let initial = Counters::initial(alloc, &g)?;
        let asked = solve_alone(alloc, g, false)?;
        if is_covered(initial.lanes(), &list) {
            assert!(rt; is_held(&asked, &list), "case {case}");
        } else {
            assert!(rt; is_lost(&asked), "case {case}");
            lost = lost.wrapping_add(1);
        }
    }
    assert!(rt; lost > 50 && lost < CASES - 50, "{lost} lost");
    Ok(())
}

/// What the events of all cases did.
#[derive(Drop)]
struct Seen {
    replaced: u64,
    stale: u64,
    gone: u64,
}

impl Seen {
    fn note(&mut self, said: Played) {
        let Played::Done(done) = said else { return };
        match done {
            Committed::Replaced => self.replaced = self.replaced.wrapping_add(1),
            Committed::Stale => self.stale = self.stale.wrapping_add(1),
            Committed::Gone => self.gone = self.gone.wrapping_add(1),
            Committed::Fresh | Committed::Other => {}
        }
    }
}

/// The worker of an event.
fn worker_in(e: Event) -> u32
    ensures { result ≡ worker_of e }
{
    match e {
        Event::Draw { worker } => worker,
        Event::Claim { worker } => worker,
        Event::Commit { worker } => worker,
    }
}

/// Plays an event of a worker that there is.
fn play(
    rt: &impl Abort,
    alloc: Global,
    world: &mut World,
    e: Event,
    seen: &mut Seen,
) -> Result<Played, Fail> {
    let worker = worker_in(e);
    assert!(rt; (worker as usize) < world.workers());
    let said = world.play(alloc, e)?;
    seen.note(said);
    Ok(said)
}

/// An event of one of so many workers.
fn drawn_event(draws: &mut Draws, workers: u32) -> Event {
    let worker = draws.below(workers.clamp(1, 8) as u64) as u32;
    match draws.below(3) {
        0 => Event::Draw { worker },
        1 => Event::Claim { worker },
        _ => Event::Commit { worker },
    }
}

/// Lets each worker claim. Whether one found that every entry is fresh.
fn claim_all(
    rt: &impl Abort,
    alloc: Global,
    world: &mut World,
    workers: u32,
    seen: &mut Seen,
) -> Result<bool, Fail> {
    let mut closed = false;
    for worker in 0..workers {
        play(rt, alloc, world, Event::Draw { worker }, seen)?;
        if play(rt, alloc, world, Event::Claim { worker }, seen)? == Played::Closed {
            closed = true;
        }
    }
    Ok(closed)
}

/// Lets each worker commit, all but the first with a snapshot that may be stale.
fn commit_all(
    rt: &impl Abort,
    alloc: Global,
    world: &mut World,
    workers: u32,
    seen: &mut Seen,
) -> Result<(), Fail> {
    for worker in 0..workers {
        play(rt, alloc, world, Event::Commit { worker }, seen)?;
    }
    Ok(())
}

/// Lets the workers go on, all at once, until every entry is fresh. Whether it came to that.
fn play_on(
    rt: &impl Abort,
    alloc: Global,
    world: &mut World,
    workers: u32,
    seen: &mut Seen,
) -> Result<bool, Fail> {
    for _ in 0..4000 {
        if claim_all(rt, alloc, world, workers, seen)? {
            return Ok(true);
        }
        commit_all(rt, alloc, world, workers, seen)?;
    }
    Ok(false)
}

/// Plays drawn events on a trial's game, then goes on until every entry is fresh, and gives the list of the board.
fn played(
    rt: &impl Abort,
    alloc: Global,
    draws: &mut Draws,
    trial: &Trial,
    seen: &mut Seen,
) -> Result<Vec<Vec<i16>>, Fail> {
    let workers = 2 + draws.below(3) as u32;
    let g = Arc::new(alloc, trial.game(rt, alloc)?)?;
    let mut world = World::open(alloc, g, workers)?;
    for _ in 0..draws.below(30) {
        let e = drawn_event(draws, workers);
        play(rt, alloc, &mut world, e, seen)?;
    }
    let ended = play_on(rt, alloc, &mut world, workers, seen)?;
    assert!(rt; ended);
    let list = plain(alloc, world.board().entries().entries())?;
    Ok(list)
}

#[test]
fn plays_to_the_same_list(rt: HostRuntime) -> Result<(), Fail> {
    let alloc = rt.alloc();
    let mut seen = Seen {
        replaced: 0,
        stale: 0,
        gone: 0,
    };
    for case in 0..CASES {
        let mut draws = Draws::of_case(case);
        let trial = Trial::draw(&rt, alloc, &mut draws, PLAYED)?;
        let list = played(&rt, alloc, &mut draws, &trial, &mut seen)?;
        let alone = solve_alone(alloc, trial.game(&rt, alloc)?, true)?;
        assert!(rt; is_held(&alone, &list), "case {case}");
    }
    assert!(rt; seen.replaced > 500, "{} replaced", seen.replaced);
    assert!(rt; seen.stale > 10, "{} stale", seen.stale);
    assert!(rt; seen.gone > 50, "{} gone", seen.gone);
    Ok(())
}
