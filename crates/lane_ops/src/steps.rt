//! The meet of vectors, and the two steps along a row.

ghost use Rattle.std.specs.Prelude.{◌≡◌, ◌<◌, ◌≤◌, ◌+◌, ◌≤ℤ◌, ◌+ℤ◌, ℕ, ℤ, pos, negsuc, length};
ghost use Rattle.std.specs.Int.{int_min};
ghost use Rattle.lane_ops.specs.Lanes.{lane, raised, allowed, IsRow, LanesWithin};

/// Writes the smaller number of each lane into `out`.
pub fn meet_into(a: &[i16], b: &[i16], out: &mut [i16])
    requires left { length a.now ≡ length out.old }
    requires right { length b.now ≡ length out.old }
    ensures { (p : ℕ) → p < length out.new → lane out.new p ≡ int_min (lane a.now p) (lane b.now p) }
{
    for p in 0..out.len() {
        out[p] = a[p].min(b[p]);
    }
}

/// Writes each lane of `v`, more by `by`, into `out`.
pub fn lift_into(v: &[i16], by: i16, out: &mut [i16])
    requires same { length v.now ≡ length out.old }
    requires by { (pos 0 ≤ℤ by) × (by ≤ℤ pos 10000) }
    requires values { LanesWithin v.now (pos 10000) }
    ensures { (p : ℕ) → p < length out.new → lane out.new p ≡ lane v.now p +ℤ by }
{
    for p in 0..out.len() {
        out[p] = v[p] + by;
    }
}

/// Raises each lane to which `row` leads to what a lane with `value` brings it, cut at `k + 1`.
pub fn raise_row(out: &mut [i16], row: &[i16], value: i16, k: i16)
    requires same { length row.now ≡ length out.old }
    requires numbers { IsRow row.now }
    requires bound { (pos 0 ≤ℤ k) × (k ≤ℤ pos 10000) }
    requires start { (pos 0 ≤ℤ value) × (value ≤ℤ (k +ℤ pos 1)) }
    requires values { LanesWithin out.old (k +ℤ pos 1) }
    ensures { (p : ℕ) → p < length out.new → lane out.new p ≡ raised k value (lane row.now p) (lane out.old p) }
{
    for p in 0..out.len() {
        out[p] = raised_lane(out[p], row[p], value, k);
    }
}

fn raised_lane(old: i16, step: i16, value: i16, k: i16) -> i16
    requires number { (pos 0 ≤ℤ step) × (step ≤ℤ pos 2) }
    requires bound { (pos 0 ≤ℤ k) × (k ≤ℤ pos 10000) }
    requires start { (pos 0 ≤ℤ value) × (value ≤ℤ (k +ℤ pos 1)) }
    ensures { result ≡ raised k value step old }
{
    if step == 0 {
        return old;
    }
    old.max((k + 1).min(value + step - 1))
}

/// The most that a lane may have whose successor along `row` is to be at or below `s`.
pub fn lower_row(s: &[i16], row: &[i16], k: i16) -> i16
    requires same { length row.now ≡ length s.now }
    requires numbers { IsRow row.now }
    requires bound { (pos 0 ≤ℤ k) × (k ≤ℤ pos 10000) }
    requires values { LanesWithin s.now (k +ℤ pos 1) }
    ensures at_most { result ≤ℤ k }
    ensures below { (p : ℕ) → p < length s.now → result ≤ℤ allowed k (lane row.now p) (lane s.now p) }
    ensures greatest { (x : ℤ) → x ≤ℤ k → ((p : ℕ) → p < length s.now → x ≤ℤ allowed k (lane row.now p) (lane s.now p)) → x ≤ℤ result }
{
    let mut least = k;
    for p in 0..s.len() {
        least = least.min(allowed_lane(s[p], row[p], k));
    }
    least
}

fn allowed_lane(s: i16, step: i16, k: i16) -> i16
    requires number { (pos 0 ≤ℤ step) × (step ≤ℤ pos 2) }
    requires bound { (pos 0 ≤ℤ k) × (k ≤ℤ pos 10000) }
    requires start { (negsuc 0 ≤ℤ s) × (s ≤ℤ (k +ℤ pos 1)) }
    ensures { result ≡ allowed k step s }
{
    if step == 0 {
        return k;
    }
    (s - (step - 1)).max(-1)
}
