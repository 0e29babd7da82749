//! The fields of a line: numbers, valuations and patterns.

ghost use Rattle.std.specs.Prelude.{◌≡◌, ℕ, List, ◌+◌, ◌<◌, ◌≤◌, ◌^◌, [], ◌∷◌, ◌++◌, length, true, false, MatchOption};
ghost use Rattle.std.specs.Fmt.{decimal};
ghost use Rattle.word_core.specs.declared.cubes.Cube.{Cube};
ghost use Rattle.word_core.specs.Cube.{IsCube};
ghost use Rattle.machine_text.specs.Fields.{is_digit, begins_with_digit, digits_from, mark, IsNoBit, IsNoMark, chars_of, valuation, marks_of, pattern, BeginsWithNone, BeginsWithNoNumber};

use word_core::Cube;

/// What stands behind a prefix of a text.
pub fn behind<'a>(text: &'a [u8], prefix: &[u8]) -> Option<&'a [u8]>
    ensures { MatchOption result
        ((r : List ℕ) → text.entry.now ≡ prefix.now ++ r → ⊥)
        (λ rest. text.entry.now ≡ prefix.now ++ rest.now) }
{
    text.strip_prefix(prefix)
}

/// The first byte of a text, and what stands behind it.
fn split_first(text: &[u8]) -> Option<(u8, &[u8])>
    ensures { MatchOption result (text.entry.now ≡ []) (λ p. text.entry.now ≡ p.0 ∷ p.1.now) }
{
    match text {
        [] => None,
        [first, rest @ ..] => Some((*first, rest)),
    }
}

fn is_digit(byte: u8) -> bool
    ensures { result ≡ is_digit byte }
{
    byte.is_ascii_digit()
}

/// A number without leading zeros at the head of a text, and what stands behind its digits.
pub fn read_number(text: &[u8]) -> Option<(u64, &[u8])>
    ensures { MatchOption result
        (BeginsWithNoNumber decimal text.entry.now)
        (λ p. (p.0 < 2 ^ 64) × (begins_with_digit p.1.now ≡ false) × (text.entry.now ≡ decimal p.0 ++ p.1.now)) }
{
    let (first, rest) = split_first(text)?;
    if !is_digit(first) {
        return None;
    }
    if first != b'0' {
        return more_digits(u64::from(first - b'0'), rest);
    }
    if begins_with_digit(rest) {
        return None;
    }
    Some((0, rest))
}

fn begins_with_digit(text: &[u8]) -> bool
    ensures { result ≡ begins_with_digit text.now }
{
    match split_first(text) {
        Some((first, _)) => is_digit(first),
        None => false,
    }
}

/// The number that further digits make of this one, and what stands behind them.
fn more_digits(number: u64, text: &[u8]) -> Option<(u64, &[u8])>
    ensures { MatchOption result
        (2 ^ 64 ≤ (digits_from number text.entry.now).0)
        (λ p. (p.0 < 2 ^ 64) × ((digits_from number text.entry.now).0 ≡ p.0) × ((digits_from number text.entry.now).1 ≡ p.1.now)) }
{
    let mut value = number;
    for (place, byte) in text.iter().enumerate() {
        if !is_digit(*byte) {
            return Some((value, &text[place..]));
        }
        value = value.checked_mul(10)?.checked_add(u64::from(*byte - b'0'))?;
    }
    Some((value, &text[text.len()..]))
}

/// A valuation of so many signals, at most 64, at the head of a text, and what stands behind it.
pub fn read_valuation(text: &[u8], width: u32) -> Option<(u64, &[u8])>
    requires { width ≤ 64 }
    ensures { MatchOption result
        (BeginsWithNone (λ v. v < 2 ^ width) (valuation width) text.entry.now)
        (λ p. (p.0 < 2 ^ width) × (text.entry.now ≡ valuation width p.0 ++ p.1.now)) }
{
    if width == 0 {
        return Some((0, behind(text, b".")?));
    }
    read_bits(text, width)
}

/// So many characters 0 or 1, the first one for the lowest bit.
fn read_bits(text: &[u8], width: u32) -> Option<(u64, &[u8])>
    requires { width ≤ 64 }
    ensures { MatchOption result
        (BeginsWithNone (λ v. v < 2 ^ width) (chars_of width) text.entry.now)
        (λ p. (p.0 < 2 ^ width) × (text.entry.now ≡ chars_of width p.0 ++ p.1.now)) }
{
    if width == 0 {
        return Some((0, text));
    }
    let (first, rest) = split_first(text)?;
    let bit = read_bit(first)?;
    let (bits, rest) = read_bits(rest, width - 1)?;
    Some((bit + bits * 2, rest))
}

fn read_bit(byte: u8) -> Option<u64>
    ensures { MatchOption result (IsNoBit byte) (λ b. (b < 2) × (byte ≡ 48 + b)) }
{
    match byte {
        b'0' => Some(0),
        b'1' => Some(1),
        _ => None,
    }
}

/// A pattern over so many signals, at most 64, at the head of a text, and what stands behind it.
pub fn read_pattern(text: &[u8], width: u32) -> Option<(Cube, &[u8])>
    requires { width ≤ 64 }
    ensures { MatchOption result
        (BeginsWithNone (IsCube width) (pattern width) text.entry.now)
        (λ p. IsCube width p.0 × (text.entry.now ≡ pattern width p.0 ++ p.1.now)) }
{
    if width == 0 {
        return Some((Cube { care: 0, want: 0 }, behind(text, b".")?));
    }
    read_marks(text, width)
}

/// So many characters 0, 1 or -, the first one for the lowest signal.
fn read_marks(text: &[u8], width: u32) -> Option<(Cube, &[u8])>
    requires { width ≤ 64 }
    ensures { MatchOption result
        (BeginsWithNone (IsCube width) (λ c. marks_of width c.care c.want) text.entry.now)
        (λ p. IsCube width p.0 × (text.entry.now ≡ marks_of width p.0.care p.0.want ++ p.1.now)) }
{
    if width == 0 {
        return Some((Cube { care: 0, want: 0 }, text));
    }
    let (first, rest) = split_first(text)?;
    let (care, want) = read_mark(first)?;
    let (cube, rest) = read_marks(rest, width - 1)?;
    let cube = Cube {
        care: care + cube.care * 2,
        want: want + cube.want * 2,
    };
    Some((cube, rest))
}

fn read_mark(byte: u8) -> Option<(u64, u64)>
    ensures { MatchOption result (IsNoMark byte) (λ p. (p.0 < 2) × (p.1 ≤ p.0) × (byte ≡ mark p.0 p.1)) }
{
    match byte {
        b'-' => Some((0, 0)),
        b'0' => Some((1, 0)),
        b'1' => Some((1, 1)),
        _ => None,
    }
}
