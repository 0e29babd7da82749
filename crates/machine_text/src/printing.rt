//! The text of a machine.

ghost use Rattle.std.specs.Prelude.{◌≡◌, ℕ, ◌+◌, ◌<◌, ◌≤◌, ◌^◌, [], ◌∷◌, ◌++◌, length, map, IfOk, OnOk};
ghost use Rattle.std.specs.Fmt.{decimal};
ghost use Rattle.machine_text.specs.Fields.{chars_of, valuation, mark, marks_of, pattern};
ghost use Rattle.machine_text.specs.Lines.{joined};
ghost use Rattle.machine_text.specs.Machines.{player_word, kind_word, owner_text, names_text, spaced, line_text, state_lines, states_lines, head_lines, machine_text};

use crate::errors::Memory;
use std::alloc::Global;
use word_core::{Cube, Kind, Line, Machine, Names, Player, widths};

/// The text of a machine whose player, kind and widths are those of the names.
pub fn print_machine(alloc: Global, m: &Machine, names: &Names) -> Result<Vec<u8>, Memory>
    ensures { IfOk result (λ text. text.items ≡ machine_text names.now m.now) }
{
    let mut text = Vec::new(alloc);
    push_head(alloc, &mut text, m, names)?;
    let (own, others) = widths(m.player(), m.inputs(), m.outputs());
    for (state, lines) in m.states().iter().enumerate() {
        push_state(alloc, &mut text, (own, others), state as u64, lines)?;
    }
    Ok(text)
}

/// The four lines before those of the states.
fn push_head(alloc: Global, text: &mut Vec<u8>, m: &Machine, names: &Names) -> Result<(), Memory>
    ensures { OnOk result (text.new.items ≡ text.old.items ++ joined (head_lines names.now m.now.player m.now.kind (length m.now.states))) }
{
    push_owner(text, m.player(), m.kind())?;
    push_names(text, b"inputs", &names.inputs)?;
    push_names(text, b"outputs", &names.outputs)?;
    text.extend_from_slice(b"states ")?;
    push_number(alloc, text, m.states().len() as u64)?;
    text.push(b'\n')?;
    Ok(())
}

fn push_owner(text: &mut Vec<u8>, player: Player, kind: Kind) -> Result<(), Memory>
    ensures { OnOk result (text.new.items ≡ text.old.items ++ owner_text player kind ++ 10 ∷ []) }
{
    text.extend_from_slice(b"machine ")?;
    text.extend_from_slice(player_word(player))?;
    text.push(b' ')?;
    text.extend_from_slice(kind_word(kind))?;
    text.push(b'\n')?;
    Ok(())
}

/// The word for a player.
pub fn player_word(player: Player) -> &'static [u8]
    ensures { result.now ≡ player_word player }
{
    match player {
        Player::System => b"system",
        Player::Environment => b"environment",
    }
}

/// The word for a kind.
pub fn kind_word(kind: Kind) -> &'static [u8]
    ensures { result.now ≡ kind_word kind }
{
    match kind {
        Kind::First => b"first",
        Kind::Second => b"second",
    }
}

fn push_names(text: &mut Vec<u8>, word: &[u8], names: &[String]) -> Result<(), Memory>
    ensures { OnOk result (text.new.items ≡ text.old.items ++ names_text word.now names.now ++ 10 ∷ []) }
{
    text.extend_from_slice(word)?;
    push_spaced(text, names)?;
    text.push(b'\n')?;
    Ok(())
}

fn push_spaced(text: &mut Vec<u8>, names: &[String]) -> Result<(), Memory>
    ensures { OnOk result (text.new.items ≡ text.old.items ++ spaced names.now) }
{
    for name in names {
        text.push(b' ')?;
        text.extend_from_slice(name.as_bytes())?;
    }
    Ok(())
}

fn push_number(alloc: Global, text: &mut Vec<u8>, number: u64) -> Result<(), Memory>
    ensures { OnOk result (text.new.items ≡ text.old.items ++ decimal number) }
{
    let digits = format!(in alloc; "{number}")?;
    text.extend_from_slice(digits.as_bytes())
}

fn push_state(
    alloc: Global,
    text: &mut Vec<u8>,
    widths: (u32, u32),
    state: u64,
    lines: &[Line],
) -> Result<(), Memory>
    ensures { OnOk result (text.new.items ≡ text.old.items ++ joined (state_lines widths.0 widths.1 state lines.now)) }
{
    for line in lines {
        push_line(alloc, text, widths, state, *line)?;
    }
    Ok(())
}

fn push_line(
    alloc: Global,
    text: &mut Vec<u8>,
    widths: (u32, u32),
    state: u64,
    line: Line,
) -> Result<(), Memory>
    ensures { OnOk result (text.new.items ≡ text.old.items ++ line_text widths.0 widths.1 state line ++ 10 ∷ []) }
{
    let (own, others) = widths;
    push_number(alloc, text, state)?;
    text.push(b' ')?;
    push_pattern(text, others, line.when)?;
    text.extend_from_slice(b" -> ")?;
    push_valuation(text, own, line.own)?;
    text.push(b' ')?;
    push_number(alloc, text, line.next)?;
    text.push(b'\n')?;
    Ok(())
}

/// A valuation of so many signals: a character for each, or a dot.
pub fn push_valuation(text: &mut Vec<u8>, width: u32, bits: u64) -> Result<(), Memory>
    ensures { OnOk result (text.new.items ≡ text.old.items ++ valuation width bits) }
{
    if width == 0 {
        text.push(b'.')?;
        return Ok(());
    }
    push_bits(text, width, bits)
}

fn push_bits(text: &mut Vec<u8>, width: u32, bits: u64) -> Result<(), Memory>
    ensures { OnOk result (text.new.items ≡ text.old.items ++ chars_of width bits) }
{
    let mut left = bits;
    for _ in 0..width {
        text.push(b'0' + (left % 2) as u8)?;
        left /= 2;
    }
    Ok(())
}

fn push_pattern(text: &mut Vec<u8>, width: u32, cube: Cube) -> Result<(), Memory>
    ensures { OnOk result (text.new.items ≡ text.old.items ++ pattern width cube) }
{
    if width == 0 {
        text.push(b'.')?;
        return Ok(());
    }
    push_marks(text, width, cube)
}

fn push_marks(text: &mut Vec<u8>, width: u32, cube: Cube) -> Result<(), Memory>
    ensures { OnOk result (text.new.items ≡ text.old.items ++ marks_of width cube.care cube.want) }
{
    let mut care = cube.care;
    let mut want = cube.want;
    for _ in 0..width {
        text.push(mark(care % 2, (want % 2) as u8))?;
        care /= 2;
        want /= 2;
    }
    Ok(())
}

/// The character of a signal: `-` where it isn't cared for, else the wanted bit.
fn mark(care: u64, want: u8) -> u8
    requires { want < 2 }
    ensures { result ≡ mark care want }
{
    if care == 0 { b'-' } else { b'0' + want }
}
