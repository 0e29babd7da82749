//! The order in which a tree tests the signals: those of the side that moves first come first.

ghost use Rattle.std.specs.Prelude.{◌≡◌, ◌<◌, ◌≤◌, ◌+◌, ◌^◌};

/// How many inputs and outputs there are, and whether the inputs are tested first.
#[derive(Clone, Copy)]
pub struct Order {
    pub inputs: u32,
    pub outputs: u32,
    pub inputs_first: bool,
    ghost narrow: { inputs + outputs ≤ 40 },
}

impl Order {
    ghost use Rattle.action_groups.specs.Sides.{leads, follows, letter_number};
    ghost use Rattle.action_groups.specs.Tests.{signal_of};

    /// The number of signals.
    pub fn width(self) -> u32
        ensures value { result ≡ self.inputs + self.outputs }
        ensures narrow { result ≤ 40 }
    {
        self.inputs + self.outputs
    }

    /// The number of signals of the side that moves first.
    pub fn leads(self) -> u32
        ensures value { result ≡ leads self }
        ensures within { result ≤ self.inputs + self.outputs }
        ensures rest { result + follows self ≡ self.inputs + self.outputs }
    {
        if self.inputs_first {
            self.inputs
        } else {
            self.outputs
        }
    }

    /// The signal of a letter that a tree tests at this place.
    pub fn signal(self, place: u32) -> u32
        requires { place < self.inputs + self.outputs }
        ensures within { result < self.inputs + self.outputs }
        ensures value { result ≡ signal_of self place }
    {
        if self.inputs_first {
            place
        } else if place < self.outputs {
            self.inputs + place
        } else {
            place - self.outputs
        }
    }

    /// The letter of a valuation of the side that moves first and one of the other.
    #[tactic(auto, using(crate::proofs::Sides::letter_whole))]
    pub fn letter(self, first: u64, second: u64) -> u64
        requires first { first < 2 ^ leads self }
        requires second { second < 2 ^ follows self }
        ensures value { result ≡ letter_number self.inputs self.inputs_first first second }
        ensures range { result < 2 ^ 64 }
    {
        if self.inputs_first {
            first.wrapping_add(second.wrapping_shl(self.inputs))
        } else {
            second.wrapping_add(first.wrapping_shl(self.inputs))
        }
    }
}
