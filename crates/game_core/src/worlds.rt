//! A board and its workers, one event at a time.

ghost use Rattle.std.specs.Prelude.{◌≡◌, ◌<◌, ◌≤◌, ◌^◌, IfOk, IfSome, MatchOption, MatchResult, None, length, replicate};
ghost use Rattle.std.specs.List.{All};
ghost use Rattle.game_form.specs.Covering.{CoversLetters};
ghost use Rattle.game_form.specs.Held.{HasHeld};
ghost use Rattle.game_form.specs.Letters.{HasLetters};
ghost use Rattle.game_core.specs.Board.{IsBoard, IsJob, IsWork, open_count};
ghost use Rattle.game_core.specs.Solved.{IsClosed};
ghost use Rattle.game_core.specs.World.{drawn, raised, said_of};

use crate::boards::Board;
use crate::events::{Event, Played};
use crate::jobs::{Job, Outcome, work};
use game_form::Game;
use std::alloc::{AllocError, Global};
use std::marker::Model;
use std::sync::Arc;

/// A board, the next number, and for each worker a number or none and a job or none.
#[derive(Drop)]
pub struct World {
    board: Board,
    next: u64,
    numbers: Vec<Option<u64>>,
    jobs: Vec<Option<Job>>,
}

impl Model for World {
    ghost use Rattle.game_core.specs.World.{WorldData, IsWorld};

    ghost Value = { WorldData };

    ghost view = { λ w. record { board = w.board; next = w.next; numbers = w.numbers.items; jobs = w.jobs.items } };

    ghost invariant = { λ w. IsWorld (record { board = w.board; next = w.next; numbers = w.numbers.items; jobs = w.jobs.items }) };
}

/// The number that is drawn: 0 once the next one would be 2 ^ 63.
fn drawn_from(next: u64) -> u64
    ensures { result ≡ drawn next }
{
    if next >= 1 << 63 { 0 } else { next }
}

/// The next number after a draw.
fn raised_from(next: u64) -> u64
    requires { next ≤ 2 ^ 63 }
    ensures value { result ≡ raised next }
    ensures bounded { result ≤ 2 ^ 63 }
{
    if next >= 1 << 63 { next } else { next + 1 }
}

/// So many workers without a number.
fn no_numbers(alloc: Global, workers: usize) -> Result<Vec<Option<u64>>, AllocError>
    ensures { IfOk result (λ v. v.items ≡ replicate workers None) }
{
    let mut numbers = Vec::new(alloc);
    for _ in 0..workers {
        numbers.push(None)?;
    }
    Ok(numbers)
}

/// So many workers without a job.
fn no_jobs(alloc: Global, workers: usize) -> Result<Vec<Option<Job>>, AllocError>
    ensures { IfOk result (λ v. v.items ≡ replicate workers None) }
{
    let mut jobs = Vec::new(alloc);
    for _ in 0..workers {
        jobs.push(None)?;
    }
    Ok(jobs)
}

/// The outcome of a worker's job. None where it holds no job.
fn outcome_of(alloc: Global, job: &Option<Job>) -> Result<Option<Outcome>, AllocError>
    ensures { IfOk result (λ o. MatchOption job.now (o ≡ None) (λ j. MatchOption o ⊥ (IsWork j))) }
{
    match job {
        None => Ok(None),
        Some(job) => Ok(Some(work(alloc, job)?)),
    }
}

/// What a claim answers.
fn said_for(job: &Option<Job>) -> Played
    ensures { result ≡ said_of job.now }
{
    match job {
        None => Played::Closed,
        Some(_) => Played::Claimed,
    }
}

/// What is known of jobs.
fn jobs_known(jobs: &[Option<Job>])
    ensures { All (λ j. IfSome j IsJob) jobs.now }
{
    for job in jobs {
        if let Some(job) = job {
            job.known();
        }
    }
}

impl World {
    ghost use Rattle.game_core.specs.World.{Claims, CommitsHeld, Plays, Replays, after_draw, number_at, job_at, opened_world, worker_of};

    /// The board as opened, and so many workers that hold nothing.
    pub fn open(alloc: Global, g: Arc<Game>, workers: u32) -> Result<World, AllocError>
        ensures { IfOk result (λ w. w ≡ opened_world g.value workers) }
    {
        Ok(World {
            board: Board::open(alloc, g)?,
            next: 0,
            numbers: no_numbers(alloc, workers as usize)?,
            jobs: no_jobs(alloc, workers as usize)?,
        })
    }

    /// What is known of every world: what is known of its board, and of each job that a worker holds.
    pub fn known(&self)
        ensures board { IsBoard self.now.board }
        ensures jobs { All (λ j. IfSome j IsJob) self.now.jobs }
    {
        self.board.known();
        jobs_known(&self.jobs);
    }

    /// The board.
    pub fn board(&self) -> &Board
        ensures { result.now ≡ self.now.board }
    {
        &self.board
    }

    /// The number of workers.
    pub fn workers(&self) -> usize
        ensures { result ≡ length self.now.numbers }
    {
        self.numbers.len()
    }

    fn draw(&mut self, worker: usize) -> u64
        requires { worker < length self.old.numbers }
        ensures number { result ≡ drawn self.old.next }
        ensures world { self.new ≡ after_draw self.old worker }
    {
        let number = drawn_from(self.next);
        self.next = raised_from(self.next);
        self.numbers[worker] = Some(number);
        number
    }

    fn claim(&mut self, alloc: Global, worker: usize) -> Result<Played, AllocError>
        requires { worker < length self.old.numbers }
        ensures { MatchResult result (Claims self.old worker (number_at self.old worker) self.new) (λ _. self.new ≡ self.old) }
    {
        let Some(number) = self.numbers[worker] else {
            return Ok(Played::Idle);
        };
        let job = self.board.claim(alloc, number)?;
        let said = said_for(&job);
        self.numbers[worker] = None;
        self.jobs[worker] = job;
        Ok(said)
    }

    fn commit(&mut self, alloc: Global, worker: usize) -> Result<Played, AllocError>
        requires { worker < length self.old.numbers }
        ensures { MatchResult result (CommitsHeld self.old worker (job_at self.old worker) self.new) (λ _. self.new ≡ self.old) }
    {
        let Some(outcome) = outcome_of(alloc, &self.jobs[worker])? else {
            return Ok(Played::Idle);
        };
        let done = self.board.commit(alloc, outcome)?;
        self.jobs[worker] = None;
        Ok(Played::Done(done))
    }

    /// Plays one event. A Draw gives the worker the next number, in place of one that it holds. A Claim of a worker
    /// that holds a number spends it, drops the worker's job and asks the board with the number. A Commit of a worker
    /// that holds a job does the work and commits the outcome, and the job is gone. Any other event changes nothing.
    /// Want of memory leaves the world as it is.
    pub fn play(&mut self, alloc: Global, e: Event) -> Result<Played, AllocError>
        requires { worker_of e < length self.old.numbers }
        ensures plays { MatchResult result (Plays self.old e self.new) (λ _. self.new ≡ self.old) }
        ensures workers { length self.new.numbers ≡ length self.old.numbers }
    {
        match e {
            Event::Draw { worker } => Ok(Played::Drawn(self.draw(worker as usize))),
            Event::Claim { worker } => self.claim(alloc, worker as usize),
            Event::Commit { worker } => self.commit(alloc, worker as usize),
        }
    }

    /// The opened world after all events, in order, and the list of their answers.
    pub fn replay(
        alloc: Global,
        g: Arc<Game>,
        workers: u32,
        events: &[Event],
    ) -> Result<(World, Vec<Played>), AllocError>
        requires { All (λ e. worker_of e < workers) events.now }
        ensures replays { IfOk result (λ r. Replays (opened_world g.value workers) events.now r.0 r.1.items) }
        ensures workers { IfOk result (λ r. length r.0.numbers ≡ workers) }
        ensures game { IfOk result (λ r. r.0.board.game ≡ g.value) }
        ensures board { IfOk result (λ r. IsBoard r.0.board) }
        ensures jobs { IfOk result (λ r. All (λ j. IfSome j IsJob) r.0.jobs) }
        ensures closed { IfOk result (λ r. open_count r.0.board.marks ≡ 0 → IsClosed g.value r.0.board.list) }
        ensures held { IfOk result (λ r. open_count r.0.board.marks ≡ 0 → HasLetters g.value → CoversLetters g.value → HasHeld g.value r.0.board.list) }
    {
        let mut world = World::open(alloc, g, workers)?;
        let mut answers = Vec::new(alloc);
        for e in events {
            answers.push(world.play(alloc, *e)?)?;
        }
        world.known();
        world.board.game().known();
        Ok((world, answers))
    }
}
