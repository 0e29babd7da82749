//! The operations on lanes beside one lane at a time.

ghost use Rattle.std.specs.Prelude.{IsTrue};
ghost use Rattle.lane_ops.specs.Lanes.{IsRow, LanesWithin};

use crate::draws::Draws;
use lane_ops::{first_differs, le, lower_row, meet_into, over, raise_row};
use std::alloc::{AllocError, Global};
use std::test::Fail;

/// How many cases a trial has.
const CASES: u64 = 400;

/// Lengths about those of blocks of lanes.
const LENGTHS: [u64; 10] = [0, 1, 15, 16, 17, 31, 32, 33, 64, 100];

/// One of these lengths, or one up to 40.
fn drawn_length(draws: &mut Draws) -> u64 {
    match LENGTHS.get(draws.below(20) as usize) {
        Some(length) => *length,
        None => draws.below(41),
    }
}

/// So many numbers from -1 to `k`.
fn drawn(alloc: Global, draws: &mut Draws, len: u64, k: u8) -> Result<Vec<i16>, AllocError> {
    let mut lanes = Vec::new(alloc);
    for _ in 0..len {
        lanes.push(draws.lane(k))?;
    }
    Ok(lanes)
}

/// So many numbers from 0 to 2.
fn drawn_row(alloc: Global, draws: &mut Draws, len: u64) -> Result<Vec<i16>, AllocError> {
    let mut row = Vec::new(alloc);
    for _ in 0..len {
        row.push(draws.below(3) as i16)?;
    }
    Ok(row)
}

/// The numbers, a few of them one more.
fn nudged(alloc: Global, draws: &mut Draws, lanes: &[i16]) -> Result<Vec<i16>, AllocError> {
    let mut out = Vec::new(alloc);
    for lane in lanes {
        let more = draws.below(24) == 0;
        out.push(if more { lane.wrapping_add(1) } else { *lane })?;
    }
    Ok(out)
}

/// Whether all numbers are from 0 to 2.
fn is_row(row: &[i16]) -> bool
    ensures { IsTrue result → IsRow row.now }
{
    for number in row {
        if *number < 0 || *number > 2 {
            return false;
        }
    }
    true
}

/// Whether all numbers are from -1 to `high`.
fn is_within(lanes: &[i16], high: i16) -> bool
    ensures { IsTrue result → LanesWithin lanes.now high }
{
    for lane in lanes {
        if *lane < -1 || *lane > high {
            return false;
        }
    }
    true
}

/// How many lanes of `a` are above those of `b`.
fn count_above(a: &[i16], b: &[i16]) -> usize {
    a.iter().zip(b).filter(|pair| pair.0 > pair.1).count()
}

#[test]
fn compares_lane_by_lane(rt: HostRuntime) -> Result<(), Fail> {
    for case in 0..CASES {
        let mut draws = Draws::of_case(case);
        let len = drawn_length(&mut draws);
        let a = drawn(rt.alloc(), &mut draws, len, 3)?;
        let b = nudged(rt.alloc(), &mut draws, &a)?;
        assert_eq!(rt; a.len(), b.len());
        assert!(rt; le(&a, &b), "case {case}");
        assert_eq!(rt; le(&b, &a), count_above(&b, &a) == 0, "case {case}");
    }
    Ok(())
}

#[test]
fn finds_lanes(rt: HostRuntime) -> Result<(), Fail> {
    for case in 0..CASES {
        let mut draws = Draws::of_case(case);
        let len = drawn_length(&mut draws);
        let a = drawn(rt.alloc(), &mut draws, len, 30)?;
        let b = nudged(rt.alloc(), &mut draws, &a)?;
        let k = draws.lane(30);
        let above = a.iter().filter(|x| **x > k).count();
        assert_eq!(rt; over(&a, k), above > 0, "case {case}");
        assert_eq!(rt; a.len(), b.len());
        let equal = a.iter().zip(&b).take_while(|pair| pair.0 == pair.1).count();
        assert_eq!(rt; first_differs(&a, &b), equal, "case {case}");
    }
    Ok(())
}

#[test]
fn meets_lane_by_lane(rt: HostRuntime) -> Result<(), Fail> {
    for case in 0..CASES {
        let mut draws = Draws::of_case(case);
        let len = drawn_length(&mut draws);
        let a = drawn(rt.alloc(), &mut draws, len, 9)?;
        let b = drawn(rt.alloc(), &mut draws, len, 9)?;
        let mut out = drawn(rt.alloc(), &mut draws, len, 9)?;
        assert_eq!(rt; a.len(), out.len());
        assert_eq!(rt; b.len(), out.len());
        meet_into(&a, &b, &mut out);
        assert_eq!(rt; count_above(&out, &a), 0, "case {case}");
        assert_eq!(rt; count_above(&out, &b), 0, "case {case}");
        // each lane is one of the two
        let (below_a, below_b) = (count_above(&a, &out), count_above(&b, &out));
        let differ = a.iter().zip(&b).filter(|pair| pair.0 != pair.1).count();
        assert_eq!(rt; below_a.wrapping_add(below_b), differ, "case {case}");
    }
    Ok(())
}

/// What a lane is raised to: the greatest of its number and what the row brings it.
fn raised(old: i16, number: i16, value: i16, k: i16) -> i64 {
    let brought = (value as i64 + number as i64 - 1).min(k as i64 + 1);
    if number > 0 && brought > old as i64 {
        brought
    } else {
        old as i64
    }
}

#[test]
fn raises_along_rows(rt: HostRuntime) -> Result<(), Fail> {
    for case in 0..CASES {
        let mut draws = Draws::of_case(case);
        let (len, k) = (drawn_length(&mut draws), if draws.coin() { 2 } else { 200 });
        let row = drawn_row(rt.alloc(), &mut draws, len)?;
        let old = drawn(rt.alloc(), &mut draws, len, k)?;
        let mut out = Vec::from_slice(rt.alloc(), &old)?;
        let value = draws.lane(k).max(0);
        let bound = k as i16;
        assert_eq!(rt; row.len(), out.len());
        assert!(rt; is_row(&row) && is_within(&out, bound + 1));
        raise_row(&mut out, &row, value, bound);
        for (i, lane) in out.iter().enumerate() {
            let (before, number) = (at(&old, i), at(&row, i));
            assert_eq!(rt;
                *lane as i64,
                raised(before, number, value, bound),
                "case {case}"
            );
        }
    }
    Ok(())
}

/// Whether a lane with the number `x` brings no more than `s` along a row's number.
fn is_allowed(x: i16, number: i16, s: i16) -> bool {
    number == 0 || x < 0 || x as i64 + number as i64 - 1 <= s as i64
}

/// Whether a lane with the number `x` brings no more than `s` along a row.
fn is_allowed_by_all(x: i16, row: &[i16], s: &[i16]) -> bool {
    for (number, most) in row.iter().zip(s) {
        if !is_allowed(x, *number, *most) {
            return false;
        }
    }
    true
}

#[test]
fn lowers_along_rows(rt: HostRuntime) -> Result<(), Fail> {
    for case in 0..CASES {
        let mut draws = Draws::of_case(case);
        let (len, k) = (drawn_length(&mut draws), if draws.coin() { 2 } else { 30 });
        let row = drawn_row(rt.alloc(), &mut draws, len)?;
        let s = drawn(rt.alloc(), &mut draws, len, k)?;
        let bound = k as i16;
        assert_eq!(rt; row.len(), s.len());
        assert!(rt; is_row(&row) && is_within(&s, bound + 1));
        let least = lower_row(&s, &row, bound);
        let mut most = -1;
        for x in -1..bound + 1 {
            if is_allowed_by_all(x, &row, &s) {
                most = x;
            }
        }
        assert_eq!(rt; least, most, "case {case}");
    }
    Ok(())
}

/// The number at a place, 0 where there is none.
fn at(lanes: &[i16], i: usize) -> i16 {
    match lanes.get(i) {
        Some(lane) => *lane,
        None => 0,
    }
}
