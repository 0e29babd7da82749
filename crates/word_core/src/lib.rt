//! Words, plays, runs and counts: the values that the other crates speak of.
//!
//! No call of this crate takes memory.
#![tactic(auto)]

mod automata;
mod branches;
mod cubes;
mod gaps;
mod lassos;
mod machines;
mod names;

pub use automata::{Automaton, Edge, State};
pub use branches::{Branch, walk};
pub use cubes::{Cube, Letter, fits};
pub use gaps::least_gap;
pub use lassos::Lasso;
pub use machines::{Line, Machine, MachineFault, first_with_gap, widths};
pub use names::{Kind, Names, Player, Target};

#[cfg(test)]
mod tests {
    use super::*;
    use std::test::Fail;

    fn line(care: u64, want: u64, own: u64, next: u64) -> Line {
        Line {
            when: Cube { care, want },
            own,
            next,
        }
    }

    #[test]
    fn a_machine_steps_by_its_first_line(rt: HostRuntime) -> Result<(), Fail> {
        let mut lines = Vec::new(rt.alloc());
        lines.push(line(1, 0, 0, 0))?;
        lines.push(line(0, 0, 1, 0))?;
        let mut states = Vec::new(rt.alloc());
        states.push(lines)?;
        let made = Machine::make(Player::System, Kind::Second, 1, 1, states);
        let machine = made.ok().expect(&rt, "a machine");
        assert_eq!(rt; machine.lines(0).len(), 2);
        Ok(())
    }

    #[test]
    fn a_state_with_a_gap_is_refused(rt: HostRuntime) -> Result<(), Fail> {
        let mut lines = Vec::new(rt.alloc());
        lines.push(line(1, 0, 1, 0))?;
        let mut states = Vec::new(rt.alloc());
        states.push(lines)?;
        let made = Machine::make(Player::System, Kind::Second, 1, 1, states);
        assert_eq!(rt; made.err(), Some(MachineFault::Gap(0)));
        Ok(())
    }

    #[test]
    fn the_least_gap_is_found(rt: HostRuntime) -> Result<(), Fail> {
        let lines = [line(1, 0, 0, 0), line(3, 1, 0, 0)];
        let all = Cube { care: 0, want: 0 };
        assert_eq!(rt; least_gap(&lines, all), Some(3));
        let low = Cube { care: 2, want: 0 };
        assert_eq!(rt; least_gap(&lines, low), None);
        Ok(())
    }

    #[test]
    fn a_tree_is_walked_by_its_signals(rt: HostRuntime) -> Result<(), Fail> {
        let split = Branch::Split {
            signal: 1,
            low: 0,
            high: 1,
        };
        let nodes = [Branch::Leaf(0), Branch::Leaf(7), split];
        assert_eq!(rt; walk(&nodes, 2), 7);
        assert_eq!(rt; walk(&nodes, 1), 0);
        Ok(())
    }

    #[test]
    fn an_edge_beyond_the_states_is_refused(rt: HostRuntime) -> Result<(), Fail> {
        let edge = Edge {
            cube: Cube { care: 1, want: 0 },
            next: 1,
            marked: true,
        };
        let mut edges = Vec::new(rt.alloc());
        edges.push(edge)?;
        let mut states = Vec::new(rt.alloc());
        states.push(State { edges })?;
        assert!(rt; Automaton::make(1, states, Some(0)).is_none());
        Ok(())
    }

    #[test]
    fn a_lasso_counts_its_positions(rt: HostRuntime) -> Result<(), Fail> {
        let stem = [Letter(1)].to_vec(rt.alloc())?;
        let cycle = [Letter(2)].to_vec(rt.alloc())?;
        let lasso = Lasso::make(stem, cycle).expect(&rt, "a lasso");
        assert_eq!(rt; lasso.len(), 2);
        Ok(())
    }
}
