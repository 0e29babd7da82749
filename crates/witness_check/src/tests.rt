//! A machine of one state that copies its input, against a response demand.

ghost use Rattle.std.specs.Prelude.{◌≡◌, IfOk, IfSome};

use crate::keeps;
use std::alloc::{AllocError, Global};
use std::test::Fail;
use word_core::{Automaton, Cube, Edge, Kind, Line, Machine, Player, State};

fn edge(care: u64, want: u64, next: u32, marked: bool) -> Edge {
    Edge {
        cube: Cube { care, want },
        next,
        marked,
    }
}

/// The automaton of a request that is never granted: signal 0 asks, signal 1 grants.
fn pending(alloc: Global) -> Result<Option<Automaton>, AllocError>
    ensures { IfOk result (λ o. IfSome o (λ a. a.signals ≡ 2)) }
{
    let mut first = Vec::new(alloc);
    first.push(edge(0, 0, 0, false))?;
    first.push(edge(3, 1, 1, true))?;
    let mut second = Vec::new(alloc);
    second.push(edge(2, 0, 1, true))?;
    let mut states = Vec::new(alloc);
    states.push(State { edges: first })?;
    states.push(State { edges: second })?;
    Ok(Automaton::make(2, states, Some(0)))
}

/// The system's machine of one state that always answers the same.
fn constant(alloc: Global, own: u64) -> Result<Option<Machine>, AllocError>
    ensures { IfOk result (λ o. IfSome o (λ m. (m.inputs ≡ 1) × (m.outputs ≡ 1))) }
{
    let mut lines = Vec::new(alloc);
    let all = Cube { care: 0, want: 0 };
    lines.push(Line {
        when: all,
        own,
        next: 0,
    })?;
    let mut states = Vec::new(alloc);
    states.push(lines)?;
    Ok(Machine::make(Player::System, Kind::Second, 1, 1, states).ok())
}

#[test]
fn a_machine_that_always_grants_keeps_zero(rt: HostRuntime) -> Result<(), Fail> {
    let automaton = pending(rt.alloc())?.expect(&rt, "an automaton");
    let machine = constant(rt.alloc(), 1)?.expect(&rt, "a machine");
    assert!(rt; keeps(rt.alloc(), &automaton, &machine, 0)?);
    Ok(())
}

#[test]
fn a_machine_that_never_grants_keeps_no_bound(rt: HostRuntime) -> Result<(), Fail> {
    let automaton = pending(rt.alloc())?.expect(&rt, "an automaton");
    let machine = constant(rt.alloc(), 0)?.expect(&rt, "a machine");
    assert!(rt; !keeps(rt.alloc(), &automaton, &machine, 10_000)?);
    Ok(())
}

/// The automaton of a grant at some time, but neither now nor next; signal 0 grants.
fn late(alloc: Global) -> Result<Option<Automaton>, AllocError>
    ensures { IfOk result (λ o. IfSome o (λ a. a.signals ≡ 1)) }
{
    let mut root = Vec::new(alloc);
    root.push(edge(0, 0, 1, true))?;
    root.push(edge(1, 1, 2, true))?;
    root.push(edge(1, 0, 3, true))?;
    let mut next = Vec::new(alloc);
    next.push(edge(1, 1, 2, true))?;
    let mut all = Vec::new(alloc);
    all.push(edge(0, 0, 2, true))?;
    let mut never = Vec::new(alloc);
    never.push(edge(1, 0, 3, true))?;
    let mut states = Vec::new(alloc);
    states.push(State { edges: root })?;
    states.push(State { edges: next })?;
    states.push(State { edges: all })?;
    states.push(State { edges: never })?;
    Ok(Automaton::make(1, states, Some(0)))
}

/// The system's machine that grants from the third step on.
fn third(alloc: Global) -> Result<Option<Machine>, AllocError>
    ensures { IfOk result (λ o. IfSome o (λ m. (m.inputs ≡ 0) × (m.outputs ≡ 1))) }
{
    let mut states = Vec::new(alloc);
    for (own, next) in [(0, 1), (0, 2), (1, 2)] {
        let when = Cube { care: 0, want: 0 };
        let mut lines = Vec::new(alloc);
        lines.push(Line { when, own, next })?;
        states.push(lines)?;
    }
    Ok(Machine::make(Player::System, Kind::Second, 0, 1, states).ok())
}

#[test]
fn a_machine_that_grants_late_keeps_two(rt: HostRuntime) -> Result<(), Fail> {
    let automaton = late(rt.alloc())?.expect(&rt, "an automaton");
    let machine = third(rt.alloc())?.expect(&rt, "a machine");
    assert!(rt; keeps(rt.alloc(), &automaton, &machine, 2)?);
    assert!(rt; !keeps(rt.alloc(), &automaton, &machine, 1)?);
    Ok(())
}
