//! Equality of lists and games.

ghost use Rattle.std.specs.Prelude.{◌≡◌, ◌↔◌, IsTrue};

use antichain_list::ListDownset;
use counter_vec::Counters;

/// Whether two vectors are equal.
pub fn same_vector(a: &Counters, b: &Counters) -> bool
    ensures { IsTrue result ↔ (a.now ≡ b.now) }
{
    a.lanes() == b.lanes()
}

/// Whether two lists are equal.
pub fn same_list(a: &ListDownset<Counters>, b: &ListDownset<Counters>) -> bool
    ensures { IsTrue result ↔ (a.now ≡ b.now) }
{
    let xs = a.entries();
    let ys = b.entries();
    if xs.len() != ys.len() {
        return false;
    }
    for i in 0..xs.len() {
        if !same_vector(&xs[i], &ys[i]) {
            return false;
        }
    }
    true
}
