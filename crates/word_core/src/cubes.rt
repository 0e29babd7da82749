//! Letters, and cubes of letters.

ghost use Rattle.std.specs.Prelude.{◌≡◌, ◌<◌, ◌≤◌, ◌^◌, ◌↔◌, IsTrue};

/// A valuation of all signals, the inputs first: bit j is signal j.
#[derive(Debug, Clone, Copy, PartialEq, Eq, PartialOrd, Ord, Hash)]
pub struct Letter(pub u64);

/// The valuations whose cared bits equal `want`, which is a part of `care`.
#[derive(Debug, Clone, Copy, PartialEq, Eq, PartialOrd, Ord, Hash)]
pub struct Cube {
    pub care: u64,
    pub want: u64,
}

impl Cube {
    ghost use Rattle.word_core.specs.Cube.{holds, IsCube};

    /// Whether the cube holds this valuation.
    pub fn holds(&self, bits: u64) -> bool
        ensures { result ≡ holds self.now bits }
    {
        bits & self.care == self.want
    }

    /// Whether this is a cube over so many signals, at most 64: it cares for no other one, and
    /// wants only bits that it cares for.
    pub fn is_over(&self, width: u32) -> bool
        requires { width ≤ 64 }
        ensures { IsTrue result ↔ IsCube width self.now }
    {
        fits(self.care, width) && self.want & self.care == self.want
    }
}

/// Whether a valuation has no bit past so many signals, at most 64.
pub fn fits(bits: u64, width: u32) -> bool
    requires { width ≤ 64 }
    ensures { IsTrue result ↔ (bits < 2 ^ width) }
{
    width == 64 || bits >> width == 0
}
