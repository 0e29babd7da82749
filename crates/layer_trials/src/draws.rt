//! Numbers drawn one after another.

ghost use Rattle.std.specs.Prelude.{◌<◌, ◌≤ℤ◌, pos, negsuc};

/// Numbers that follow from a seed, mixed from a counter that grows by an odd step.
#[derive(Drop)]
pub struct Draws {
    counter: u64,
}

impl Draws {
    /// The draws of a case.
    pub fn of_case(case: u64) -> Draws {
        Draws {
            counter: case.wrapping_mul(0xd134_2543_de82_ef95),
        }
    }

    /// Any number.
    pub fn any(&mut self) -> u64 {
        self.counter = self.counter.wrapping_add(0x9e37_79b9_7f4a_7c15);
        let once = (self.counter ^ self.counter >> 30).wrapping_mul(0xbf58_476d_1ce4_e5b9);
        let twice = (once ^ once >> 27).wrapping_mul(0x94d0_49bb_1331_11eb);
        twice ^ twice >> 31
    }

    /// A number below `n`, which is at least 1.
    pub fn below(&mut self, n: u64) -> u64
        requires { 0 < n }
        ensures { result < n }
    {
        self.any() % n
    }

    /// One of two.
    pub fn coin(&mut self) -> bool {
        self.any() & 1 == 1
    }

    /// A number of a lane, from -1 to `k`.
    pub fn lane(&mut self, k: u8) -> i16
        ensures low { negsuc 0 ≤ℤ result }
        ensures high { result ≤ℤ pos k }
    {
        self.below(k as u64 + 2) as i16 - 1
    }
}
