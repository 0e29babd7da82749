//! Vectors of counters, one number per lane, with successor and predecessor.
#![tactic(auto)]

mod counters;
mod flows;

pub use counters::Counters;

#[cfg(test)]
mod tests {
    use super::*;
    use antichain_list::{Downset, Entry, ListDownset};
    use std::alloc::{AllocError, Global};
    use std::cmp::Ordering;
    use std::test::Fail;

    fn triple(alloc: Global, a: u8, b: u8, c: u8) -> Result<Counters, AllocError> {
        let lanes = vec![in alloc; a as i16, b as i16, c as i16]?;
        Ok(Counters::from_lanes(lanes))
    }

    #[test]
    fn compares(rt: HostRuntime) -> Result<(), Fail> {
        let a = triple(rt.alloc(), 0, 1, 2)?;
        let b = triple(rt.alloc(), 1, 1, 1)?;
        assert!(rt; !a.at_or_below(&b));
        assert_eq!(rt; a.compare_lex(&b), Ordering::Less);
        assert!(rt; a.over(1));
        assert!(rt; !b.over(1));
        assert_eq!(rt; a.copy(rt.alloc())?.lanes(), a.lanes());
        Ok(())
    }

    #[test]
    fn lists_are_antichains(rt: HostRuntime) -> Result<(), Fail> {
        let mut d = ListDownset::empty(rt.alloc());
        d.put(triple(rt.alloc(), 1, 1, 2)?).ok();
        d.put(triple(rt.alloc(), 1, 2, 1)?).ok();
        d.put(triple(rt.alloc(), 0, 1, 1)?).ok();
        assert_eq!(rt; d.len(), 2);
        let copy = d.copy(rt.alloc())?;
        assert_eq!(rt; copy.len(), 2);
        assert_eq!(rt; d.entry(0).lanes(), [1, 1, 2].as_slice());
        assert_eq!(rt; d.entry(1).lanes(), [1, 2, 1].as_slice());
        assert_eq!(rt; d.take(0).lanes(), [1, 1, 2].as_slice());
        assert!(rt; !d.covers(copy.entry(0)));
        Ok(())
    }
}
