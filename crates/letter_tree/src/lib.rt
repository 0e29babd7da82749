//! Reduced decision trees: functions from valuations of signals to labels.
//!
//! A node tests the least signal on which its function depends, and equal functions are one node.
//! So a function has one tree, and its nodes have one order: those of the part for 0, those of the
//! part for 1, then the node itself. No call goes through all valuations.
#![tactic(auto)]

ghost use Rattle.std.specs.Prelude.{◌≡◌, IfOk};

mod choices;
mod cuts;
mod joins;
mod memos;
mod occurrences;
mod reached_nodes;
mod splittings;
mod tables;
mod trees;

pub use cuts::split;
pub use joins::{apply, equal, tree_is_one};
pub use occurrences::{labels, least, leasts_of};
pub use splittings::patterns;
pub use trees::{Tree, nodes};

#[cfg(test)]
mod tests {
    use super::*;
    use std::alloc::Global;
    use std::test::Fail;
    use word_core::{Branch, Cube, walk};

    fn of_labels(alloc: Global) -> Result<Tree, Fail>
        ensures { IfOk result (λ t. t.width ≡ 2) }
    {
        Ok(Tree::from_labels(alloc, 2, &[0, 0, 1, 1])?)
    }

    #[test]
    fn splits_by_signals(rt: HostRuntime) -> Result<(), Fail> {
        let alloc = rt.alloc();
        let lines = patterns(alloc, &of_labels(alloc)?)?;
        let low = Cube { care: 2, want: 0 };
        let high = Cube { care: 2, want: 2 };
        assert_eq!(rt; lines.as_slice(), [(low, 0), (high, 1)].as_slice());
        Ok(())
    }

    #[test]
    fn applies_a_sum(rt: HostRuntime) -> Result<(), Fail> {
        let alloc = rt.alloc();
        let one = Tree::constant(alloc, 2, 1)?;
        let sum = apply(alloc, &of_labels(alloc)?, &one, |x, y| x.wrapping_add(y))?;
        assert!(rt; equal(&sum, &Tree::from_labels(alloc, 2, &[1, 1, 2, 2])?));
        Ok(())
    }

    #[test]
    fn reads_a_cube(rt: HostRuntime) -> Result<(), Fail> {
        let alloc = rt.alloc();
        let t = Tree::from_cube(alloc, 2, Cube { care: 2, want: 2 }, 1, 0)?;
        assert!(rt; equal(&t, &of_labels(alloc)?));
        assert_eq!(rt; least(&t, 1), Some(2));
        assert_eq!(rt; least(&t, 7), None);
        assert_eq!(rt; labels(alloc, &t)?.as_slice(), [0, 1].as_slice());
        Ok(())
    }

    #[test]
    fn lists_nodes(rt: HostRuntime) -> Result<(), Fail> {
        let alloc = rt.alloc();
        let t = of_labels(alloc)?;
        let all = nodes(alloc, &t)?;
        let split = Branch::Split {
            signal: 1,
            low: 0,
            high: 1,
        };
        assert_eq!(rt;
            all.as_slice(),
            [Branch::Leaf(0), Branch::Leaf(1), split].as_slice()
        );
        assert!(rt; equal(&t, &Tree::from_nodes(alloc, 2, &all)?));
        Ok(())
    }

    #[test]
    fn cuts_after_a_signal(rt: HostRuntime) -> Result<(), Fail> {
        let alloc = rt.alloc();
        let (front, rests) = split(alloc, &of_labels(alloc)?, 1)?;
        assert!(rt; equal(&front, &Tree::constant(alloc, 1, 0)?));
        assert_eq!(rt; rests.len(), 1);
        assert!(rt; equal(&rests[0], &Tree::from_labels(alloc, 1, &[0, 1])?));
        Ok(())
    }
}
