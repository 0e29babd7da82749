//! The two sides of a cube of letters, and cubes that hold what two others hold.

ghost use Rattle.std.specs.Prelude.{◌≡◌, ◌≤◌, ◌/◌, ◌%◌, ◌^◌, ◌+◌, MatchOption, bit_and};
ghost use Rattle.witness_check.specs.Product.{own_side, other_side, joined_of};

use word_core::{Cube, Player};

/// The bits of the signals from a number on, at most 64.
fn bits_behind(bits: u64, width: u32) -> u64
    requires { width ≤ 64 }
    ensures { result ≡ bits / 2 ^ width }
{
    if width == 64 { 0 } else { bits >> width }
}

/// The bits of so many first signals, at most 64.
fn bits_before(bits: u64, width: u32) -> u64
    requires { width ≤ 64 }
    ensures { result ≡ bits % 2 ^ width }
{
    if width == 64 {
        bits
    } else {
        bits % (1 << width)
    }
}

/// The parts of a cube of letters: for the player's own signals, and for the other's.
pub fn sides(player: Player, inputs: u32, cube: Cube) -> (Cube, Cube)
    requires { inputs ≤ 64 }
    ensures own { result.0 ≡ own_side player inputs cube }
    ensures other { result.1 ≡ other_side player inputs cube }
{
    let first = Cube {
        care: bits_before(cube.care, inputs),
        want: bits_before(cube.want, inputs),
    };
    let second = Cube {
        care: bits_behind(cube.care, inputs),
        want: bits_behind(cube.want, inputs),
    };
    match player {
        Player::System => (second, first),
        Player::Environment => (first, second),
    }
}

/// The cube of what two cubes hold. None where they want different bits.
pub fn joined(a: Cube, b: Cube) -> Option<Cube>
    ensures { MatchOption result
        (bit_and a.want b.care ≡ bit_and b.want a.care → ⊥)
        (λ c. (bit_and a.want b.care ≡ bit_and b.want a.care) × (c ≡ joined_of a b)) }
{
    if a.want & b.care != b.want & a.care {
        return None;
    }
    Some(Cube {
        care: a.care | b.care,
        want: a.want | b.want,
    })
}
