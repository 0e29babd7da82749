//! Vectors of 16-bit lanes: comparison, meet, and the two steps along a row.
//!
//! All slices of one call have equal length, and no call takes memory.
#![tactic(auto)]

mod compares;
mod steps;

pub use compares::{first_differs, le, meet_le, over};
pub use steps::{lift_into, lower_row, meet_into, raise_row};

#[cfg(test)]
mod tests {
    use super::*;
    use std::test::Fail;

    #[test]
    fn raises(rt: HostRuntime) -> Result<(), Fail> {
        let mut out = [-1i16, -1];
        raise_row(&mut out, &[1, 2], 0, 0);
        assert_eq!(rt; out, [0, 1]);
        let mut one = [-1i16];
        raise_row(&mut one, &[2], 127, 126);
        assert_eq!(rt; one, [127]);
        raise_row(&mut one, &[2], 10000, 10000);
        assert_eq!(rt; one, [10001]);
        Ok(())
    }

    #[test]
    fn lowers(rt: HostRuntime) -> Result<(), Fail> {
        assert_eq!(rt; lower_row(&[0, -1], &[1, 2], 0), -1);
        assert_eq!(rt; lower_row(&[-1], &[2], 126), -1);
        Ok(())
    }

    #[test]
    fn compares(rt: HostRuntime) -> Result<(), Fail> {
        let mut a = [0i16; 33];
        a[32] = 1;
        assert!(rt; !le(&a, &[0; 33]));
        assert!(rt; le(&[0; 33], &a));
        assert!(rt; !over(&[], 0));
        assert!(rt; over(&a, 0));
        let mut b = [0i16; 64];
        b[31] = 1;
        b[40] = 1;
        assert_eq!(rt; first_differs(&b, &[0; 64]), 31);
        Ok(())
    }

    #[test]
    fn meets(rt: HostRuntime) -> Result<(), Fail> {
        let mut out = [0i16; 2];
        meet_into(&[0, 3], &[1, 2], &mut out);
        assert_eq!(rt; out, [0, 2]);
        assert!(rt; meet_le(&[0, 3], &[1, 2], &[0, 2]));
        assert!(rt; !meet_le(&[0, 3], &[1, 2], &[1, 1]));
        lift_into(&[-1, 3], 2, &mut out);
        assert_eq!(rt; out, [1, 5]);
        Ok(())
    }
}
