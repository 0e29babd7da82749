//! Machines from their texts.

ghost use Rattle.std.specs.Prelude.{◌≡◌, ℕ, List, ◌+◌, ◌-◌, ◌<◌, ◌≤◌, ◌^◌, [], ◌∷◌, ◌++◌, length, map, drop, codes, slice_index_or, IfOk, IfErr, OnOk, IsTrue, MatchOption};
ghost use Rattle.std.specs.Fmt.{decimal};
ghost use Rattle.std.specs.List.{All};
ghost use Rattle.word_core.specs.Cube.{IsCube};
ghost use Rattle.word_core.specs.declared.machines.Line.{Line};
ghost use Rattle.word_core.specs.Machine.{MachineData, IsMachine, IsLine, IsDecided, IsLeastWithout, own_width, other_width};
ghost use Rattle.machine_text.specs.declared.errors.MachineError.TheVariants.{Memory};
ghost use Rattle.machine_text.specs.declared.reading.Entry.{Entry};
ghost use Rattle.machine_text.specs.Lines.{NextIsNone};
ghost use Rattle.machine_text.specs.Machines.{kind_of, owner_text, bound_text, names_text, count_text, line_text, Spells, HasMachineFault, AreWhole};
ghost use Rattle.machine_text.specs.Reading.{IsEntry, IsOwnerLine, IsVerdictLine, IsNumberLine, IsCountLine, IsEntryLine, IsLed, HasNoOwner, AreRead, HasEntryFault, HasMakeFault, AreGrouped, first_lines, behind_state, spread};

use crate::errors::{BadLine, MachineError, Memory};
use crate::fields::{behind, read_number, read_pattern, read_valuation};
use crate::lines::Lines;
use crate::printing::{kind_word, player_word};
use std::alloc::Global;
use word_core::{Kind, Line, Machine, MachineFault, Names, Player, Target, first_with_gap, widths};

/// The machine of a text, over at most 64 names. The text has fewer than 2^32 - 1 bytes.
pub fn read_machine(alloc: Global, text: &[u8], names: &Names) -> Result<Machine, MachineError>
    requires few { length names.now.inputs.items + length names.now.outputs.items ≤ 64 }
    requires short { length text.now < 2 ^ 32 - 1 }
    ensures inputs { IfOk result (λ m. m.inputs ≡ length names.now.inputs.items) }
    ensures outputs { IfOk result (λ m. m.outputs ≡ length names.now.outputs.items) }
    ensures value { IfOk result (Spells names.now text.now) }
    ensures fault { IfErr result (HasMachineFault names.now text.now) }
    ensures back { AreWhole names.now.inputs.items → AreWhole names.now.outputs.items → (m : MachineData) → IsMachine m → Spells names.now text.now m → IfOk result (λ v. v ≡ m) × IfErr result (λ e. e ≡ Memory) }
{
    let mut lines = Lines::of(text);
    let (player, kind) = read_owner(&mut lines, names.target)?;
    read_names(&mut lines, b"inputs", &names.inputs)?;
    read_names(&mut lines, b"outputs", &names.outputs)?;
    let count = read_count(&mut lines)?;
    let inputs = names.inputs.len() as u32;
    let outputs = names.outputs.len() as u32;
    let (own, others) = widths(player, inputs, outputs);
    let entries = read_entries(alloc, &mut lines, own, others, count)?;
    machine_of(alloc, (player, kind), (inputs, outputs), &entries, count)
}

/// The machine of the lines of so many states.
fn machine_of(
    alloc: Global,
    owner: (Player, Kind),
    signals: (u32, u32),
    entries: &[Entry],
    count: u64,
) -> Result<Machine, MachineError>
    requires few { signals.0 + signals.1 ≤ 64 }
    requires some { 0 < count }
    requires ranged { All (IsEntry (own_width owner.0 signals.0 signals.1) (other_width owner.0 signals.0 signals.1) count) entries.now }
    ensures value { IfOk result (λ m. m ≡ record { player = owner.0; kind = owner.1; inputs = signals.0; outputs = signals.1; states = spread 0 count entries.now }) }
    ensures fault { IfErr result (HasMakeFault (record { player = owner.0; kind = owner.1; inputs = signals.0; outputs = signals.1; states = spread 0 count entries.now })) }
{
    let (player, kind) = owner;
    let (inputs, outputs) = signals;
    let (own, others) = widths(player, inputs, outputs);
    let states = grouped(alloc, entries, own, others, count)?;
    if (states.len() as u64) < count {
        let gap = gap_before(&states, others);
        return Err(MachineError::Gap(gap));
    }
    match Machine::make(player, kind, inputs, outputs, states) {
        Ok(machine) => Ok(machine),
        Err(MachineFault::Gap(state)) => Err(MachineError::Gap(state)),
        Err(MachineFault::NotFirst(state)) => Err(MachineError::NotFirst(state)),
        Err(_) => unreachable!(),
    }
}

/// The least state with a gap, where the state behind these ones has no line.
fn gap_before(states: &[Vec<Line>], others: u32) -> u64
    requires others_in { others ≤ 64 }
    requires ranged { All (All (λ l. IsCube others l.when)) (map (λ lines. lines.items) states.now) }
    ensures { (more : List (List Line)) → IsLeastWithout (IsDecided others) (map (λ lines. lines.items) states.now ++ [] ∷ more) result }
{
    match first_with_gap(states, others) {
        Some(gap) => gap,
        None => states.len() as u64,
    }
}

/// Whose machine it is, from its line, before which a verdict and a bound may stand.
fn read_owner(lines: &mut Lines<'_>, target: Target) -> Result<(Player, Kind), BadLine>
    ensures led { IfOk result (λ r. IsLed target r.0 r.1 lines.old.rest.now lines.new.rest.now lines.old.taken lines.new.taken) }
    ensures bad { IfErr result (λ e. HasNoOwner target lines.old.rest.now lines.old.taken e.0) }
{
    let line = lines.next()?;
    if is_verdict(line) {
        read_bound(lines)?;
        return read_owner_line(lines, target);
    }
    match owner_of(line, target) {
        Some(owner) => Ok(owner),
        None => Err(BadLine(lines.taken)),
    }
}

/// The line of a player and a kind.
fn read_owner_line(lines: &mut Lines<'_>, target: Target) -> Result<(Player, Kind), BadLine>
    ensures fits { IfOk result (λ r. r.1 ≡ kind_of target r.0) }
    ensures line { IfOk result (λ r. lines.old.rest.now ≡ owner_text r.0 r.1 ++ 10 ∷ lines.new.rest.now) }
    ensures taken { IfOk result (λ _. lines.new.taken ≡ lines.old.taken + 1) }
    ensures bad { IfErr result (λ e. (e.0 ≡ lines.old.taken + 1) × NextIsNone (IsOwnerLine target) lines.old.rest.now) }
{
    let line = lines.next()?;
    match owner_of(line, target) {
        Some(owner) => Ok(owner),
        None => Err(BadLine(lines.taken)),
    }
}

fn is_verdict(line: &[u8]) -> bool
    ensures yes { IsTrue result → IsVerdictLine line.now }
    ensures no { IsVerdictLine line.now → IsTrue result }
{
    line == b"REALIZABLE".as_slice() || line == b"UNREALIZABLE".as_slice()
}

/// The line of a bound.
fn read_bound(lines: &mut Lines<'_>) -> Result<(), BadLine>
    ensures ok { OnOk result ((bound : ℕ) × (bound < 2 ^ 64) × (lines.old.rest.now ≡ bound_text bound ++ 10 ∷ lines.new.rest.now) × (lines.new.taken ≡ lines.old.taken + 1)) }
    ensures bad { IfErr result (λ e. (e.0 ≡ lines.old.taken + 1) × NextIsNone (IsNumberLine (codes "bound ")) lines.old.rest.now) }
{
    let line = lines.next()?;
    match number_behind(line, b"bound ") {
        Some(_) => Ok(()),
        None => Err(BadLine(lines.taken)),
    }
}

/// The number that stands behind a word and ends the line.
fn number_behind(line: &[u8], word: &[u8]) -> Option<u64>
    ensures { MatchOption result (IsNumberLine word.now line.now → ⊥) (λ n. (n < 2 ^ 64) × (line.now ≡ word.now ++ decimal n)) }
{
    let (number, rest) = read_number(behind(line, word)?)?;
    if rest.is_empty() { Some(number) } else { None }
}

/// The kind of a player's machines under a target.
fn kind_of(target: Target, player: Player) -> Kind
    ensures { result ≡ kind_of target player }
{
    match (target, player) {
        (Target::Mealy, Player::System) => Kind::Second,
        (Target::Mealy, Player::Environment) => Kind::First,
        (Target::Moore, Player::System) => Kind::First,
        (Target::Moore, Player::Environment) => Kind::Second,
    }
}

/// The player and kind of a first line, which fit the target.
fn owner_of(line: &[u8], target: Target) -> Option<(Player, Kind)>
    ensures { MatchOption result (IsOwnerLine target line.now → ⊥) (λ p. (p.1 ≡ kind_of target p.0) × (line.now ≡ owner_text p.0 p.1)) }
{
    let system = kind_of(target, Player::System);
    let environment = kind_of(target, Player::Environment);
    if is_owner_line(line, Player::System, system) {
        Some((Player::System, system))
    } else if is_owner_line(line, Player::Environment, environment) {
        Some((Player::Environment, environment))
    } else {
        None
    }
}

fn is_owner_line(line: &[u8], player: Player, kind: Kind) -> bool
    ensures yes { IsTrue result → line.now ≡ owner_text player kind }
    ensures no { line.now ≡ owner_text player kind → IsTrue result }
{
    let Some(rest) = behind(line, b"machine ") else {
        return false;
    };
    let Some(rest) = behind(rest, player_word(player)) else {
        return false;
    };
    let Some(rest) = behind(rest, b" ") else {
        return false;
    };
    rest == kind_word(kind)
}

/// The line of a word and these names, each after a space.
fn read_names(lines: &mut Lines<'_>, word: &[u8], names: &[String]) -> Result<(), BadLine>
    ensures line { OnOk result (lines.old.rest.now ≡ names_text word.now names.now ++ 10 ∷ lines.new.rest.now) }
    ensures taken { OnOk result (lines.new.taken ≡ lines.old.taken + 1) }
    ensures bad { IfErr result (λ e. (e.0 ≡ lines.old.taken + 1) × NextIsNone (λ line. line ≡ names_text word.now names.now) lines.old.rest.now) }
{
    let line = lines.next()?;
    if is_names_line(line, word, names) {
        Ok(())
    } else {
        Err(BadLine(lines.taken))
    }
}

fn is_names_line(line: &[u8], word: &[u8], names: &[String]) -> bool
    ensures yes { IsTrue result → line.now ≡ names_text word.now names.now }
    ensures no { line.now ≡ names_text word.now names.now → IsTrue result }
{
    let Some(mut rest) = behind(line, word) else {
        return false;
    };
    for name in names {
        let Some(spaced) = behind(rest, b" ") else {
            return false;
        };
        let Some(next) = behind(spaced, name.as_bytes()) else {
            return false;
        };
        rest = next;
    }
    rest.is_empty()
}

/// The number of states, at least 1.
fn read_count(lines: &mut Lines<'_>) -> Result<u64, BadLine>
    ensures some { IfOk result (λ n. 0 < n) }
    ensures fits { IfOk result (λ n. n < 2 ^ 64) }
    ensures line { IfOk result (λ n. lines.old.rest.now ≡ count_text n ++ 10 ∷ lines.new.rest.now) }
    ensures taken { IfOk result (λ _. lines.new.taken ≡ lines.old.taken + 1) }
    ensures bad { IfErr result (λ e. (e.0 ≡ lines.old.taken + 1) × NextIsNone IsCountLine lines.old.rest.now) }
{
    let line = lines.next()?;
    let Some(count) = number_behind(line, b"states ") else {
        return Err(BadLine(lines.taken));
    };
    if count == 0 {
        return Err(BadLine(lines.taken));
    }
    Ok(count)
}

/// A line of a state.
#[derive(Debug, Clone, Copy)]
struct Entry {
    state: u64,
    line: Line,
}

/// The lines of the states up to the end of the text, in ascending order of state.
fn read_entries(
    alloc: Global,
    lines: &mut Lines<'_>,
    own: u32,
    others: u32,
    count: u64,
) -> Result<Vec<Entry>, MachineError>
    requires own_in { own ≤ 64 }
    requires others_in { others ≤ 64 }
    ensures read { IfOk result (λ es. AreRead own others count lines.old.rest.now [] lines.old.taken lines.new.taken es.items) }
    ensures fault { IfErr result (HasEntryFault own others count lines.old.rest.now lines.old.taken) }
{
    let mut entries = Vec::new(alloc);
    let mut from = 0;
    while !lines.rest.is_empty() {
        let line = lines.next()?;
        let Some(entry) = entry_within(line, own, others, from, count) else {
            return Err(MachineError::Line(lines.taken));
        };
        from = entry.state;
        entries.push(entry)?;
    }
    Ok(entries)
}

/// The entry of a line, with its state from the given one on, and state and next below the count.
fn entry_within(line: &[u8], own: u32, others: u32, from: u64, count: u64) -> Option<Entry>
    requires own_in { own ≤ 64 }
    requires others_in { others ≤ 64 }
    ensures { MatchOption result (IsEntryLine own others from count line.now → ⊥) (λ e. IsEntry own others count e × (from ≤ e.state) × (line.now ≡ line_text own others e.state e.line)) }
{
    let entry = read_entry(line, own, others)?;
    if is_within(entry, from, count) {
        Some(entry)
    } else {
        None
    }
}

fn is_within(entry: Entry, from: u64, count: u64) -> bool
    ensures yes { IsTrue result → (from ≤ entry.state) × (entry.state < count) × (entry.line.next < count) }
    ensures no { (from ≤ entry.state) × (entry.state < count) × (entry.line.next < count) → IsTrue result }
{
    from <= entry.state && entry.state < count && entry.line.next < count
}

/// The state and the line that a text `STATE PATTERN -> OWN NEXT` names.
fn read_entry(line: &[u8], own: u32, others: u32) -> Option<Entry>
    requires own_in { own ≤ 64 }
    requires others_in { others ≤ 64 }
    ensures { MatchOption result
        ((s : ℕ) (l : Line) → s < 2 ^ 64 → l.next < 2 ^ 64 → IsCube others l.when → l.own < 2 ^ own → line.now ≡ line_text own others s l → ⊥)
        (λ e. (e.state < 2 ^ 64) × (e.line.next < 2 ^ 64) × IsCube others e.line.when × (e.line.own < 2 ^ own) × (line.now ≡ line_text own others e.state e.line)) }
{
    let (state, rest) = read_number(line)?;
    let (when, rest) = read_pattern(behind(rest, b" ")?, others)?;
    let (own, rest) = read_valuation(behind(rest, b" -> ")?, own)?;
    let (next, rest) = read_number(behind(rest, b" ")?)?;
    if rest.is_empty() {
        Some(Entry {
            state,
            line: Line { when, own, next },
        })
    } else {
        None
    }
}

/// The lines of the states 0, 1 and so on, up to the first state that has no line.
fn grouped(
    alloc: Global,
    entries: &[Entry],
    own: u32,
    others: u32,
    count: u64,
) -> Result<Vec<Vec<Line>>, Memory>
    requires { All (IsEntry own others count) entries.now }
    ensures grouped { IfOk result (λ states. AreGrouped count entries.now (map (λ lines. lines.items) states.items)) }
    ensures few { IfOk result (λ states. length states.items ≤ count) }
    ensures ranged { IfOk result (λ states. All (All (IsLine own others count)) (map (λ lines. lines.items) states.items)) }
{
    let mut states = Vec::new(alloc);
    let mut at = 0;
    while at < entries.len() && entries[at].state == states.len() as u64 {
        let lines = lines_of(alloc, &entries[at..], own, others, count)?;
        at += lines.len();
        states.push(lines)?;
    }
    Ok(states)
}

/// The lines of the first entry's state, at least one.
fn lines_of(
    alloc: Global,
    entries: &[Entry],
    own: u32,
    others: u32,
    count: u64,
) -> Result<Vec<Line>, Memory>
    requires some { 0 < length entries.now }
    requires ranged { All (IsEntry own others count) entries.now }
    ensures some { IfOk result (λ lines. 0 < length lines.items) }
    ensures few { IfOk result (λ lines. length lines.items ≤ length entries.now) }
    ensures first { IfOk result (λ lines. (d : Entry) → lines.items ≡ first_lines (slice_index_or entries.now 0 d).state entries.now) }
    ensures rest { IfOk result (λ lines. (d : Entry) → drop (length lines.items) entries.now ≡ behind_state (slice_index_or entries.now 0 d).state entries.now) }
    ensures ranged { IfOk result (λ lines. All (IsLine own others count) lines.items) }
{
    let state = entries[0].state;
    let mut lines = Vec::new(alloc);
    for entry in entries {
        if entry.state != state {
            return Ok(lines);
        }
        lines.push(entry.line)?;
    }
    Ok(lines)
}
