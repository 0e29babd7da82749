//! The second part of a text, and the whole text.

ghost use Rattle.std.specs.Prelude.{◌≡◌, IfOk};
ghost use Rattle.tlsf_basic.specs.Reads.{Gives, behind_by};
ghost use Rattle.tlsf_basic.specs.Mains.{name_turn, read_names, read_declared, read_entry, read_entries, read_inputs, read_outputs, read_section, read_part, read_parts, close_main, read_main, read_text};
ghost use Rattle.tlsf_basic.specs.Values.{added, no_parts};

use crate::faults::{Part, TextFault};
use crate::formulas::read_formula;
use crate::headings::{Heading, read_heading};
use crate::stops::{
    Past, Read, Stop, behind, close_brace, declared, end, entry_end, expected, front, in_braces,
    main_word, open_brace, semicolon,
};
use crate::symbols::{Lexeme, Section, Symbol};
use ltl_form::Ltl;
use sqlite_items::Items;
use std::alloc::{AllocError, Global};

/// The entries of the six sections, in order of place.
#[derive(Debug, Drop)]
pub struct Sections {
    pub initially: Items<Ltl>,
    pub preset: Items<Ltl>,
    pub require: Items<Ltl>,
    pub assert: Items<Ltl>,
    pub assume: Items<Ltl>,
    pub guarantee: Items<Ltl>,
}

/// The parts that have stood.
#[derive(Debug, Drop)]
pub struct Parts {
    pub inputs: bool,
    pub outputs: bool,
    pub sections: Sections,
}

/// The sections with one more entry.
fn added(sections: Sections, section: Section, entry: Ltl) -> Result<Sections, AllocError>
    ensures { IfOk result (λ all. all ≡ added section entry sections) }
{
    let mut sections = sections;
    match section {
        Section::Initially => sections.initially.push(entry)?,
        Section::Preset => sections.preset.push(entry)?,
        Section::Require => sections.require.push(entry)?,
        Section::Assert => sections.assert.push(entry)?,
        Section::Assume => sections.assume.push(entry)?,
        Section::Guarantee => sections.guarantee.push(entry)?,
    }
    Ok(sections)
}

/// Names, each with `;`, up to the closing brace.
#[tactic(auto, unfolding(crate::specs::Mains::read_names))]
fn read_names<'a>(tokens: &'a [Lexeme]) -> Past<'a>
    ensures { Gives (λ r. r.now) result (read_names tokens.now) }
{
    let mut rest = tokens;
    for _ in 0..tokens.len() {
        if !in_braces(front(rest)) {
            break;
        }
        rest = read_name(rest)?;
    }
    Ok(rest)
}

fn read_name<'a>(tokens: &'a [Lexeme]) -> Past<'a>
    ensures { Gives (λ r. r.now) result (name_turn tokens.now) }
{
    semicolon(declared(tokens)?)
}

/// The declared names in braces.
#[tactic(auto, unfolding(crate::specs::Mains::read_declared))]
fn read_declared<'a>(tokens: &'a [Lexeme]) -> Past<'a>
    ensures { Gives (λ r. r.now) result (read_declared tokens.now) }
{
    close_brace(read_names(open_brace(tokens)?)?)
}

/// An entry of a section: a formula with `;`.
#[tactic(auto, unfolding(crate::specs::Mains::read_entry))]
fn read_entry<'a>(
    alloc: Global,
    section: Section,
    sections: Sections,
    tokens: &'a [Lexeme],
) -> Read<'a, Sections>
    ensures { Gives behind_by result (read_entry 256 section sections tokens.now) }
{
    let (entry, rest) = read_formula(alloc, 256, tokens)?;
    let rest = entry_end(rest)?;
    Ok((added(sections, section, entry)?, rest))
}

/// The entries up to the closing brace.
#[tactic(auto, unfolding(crate::specs::Mains::read_entries))]
fn read_entries<'a>(
    alloc: Global,
    section: Section,
    sections: Sections,
    tokens: &'a [Lexeme],
) -> Read<'a, Sections>
    ensures { Gives behind_by result (read_entries 256 section sections tokens.now) }
{
    let mut sections = sections;
    let mut rest = tokens;
    for _ in 0..tokens.len() {
        if !in_braces(front(rest)) {
            break;
        }
        let (next, after) = read_entry(alloc, section, sections, rest)?;
        sections = next;
        rest = after;
    }
    Ok((sections, rest))
}

#[tactic(auto, unfolding(crate::specs::Mains::read_inputs))]
fn read_inputs<'a>(parts: Parts, tokens: &'a [Lexeme]) -> Read<'a, Parts>
    ensures { Gives behind_by result (read_inputs parts tokens.now) }
{
    if parts.inputs {
        return Err(Stop::Fault(expected(tokens), tokens));
    }
    let rest = read_declared(behind(tokens))?;
    let Parts {
        inputs: _,
        outputs,
        sections,
    } = parts;
    let inputs = true;
    Ok((
        Parts {
            inputs,
            outputs,
            sections,
        },
        rest,
    ))
}

#[tactic(auto, unfolding(crate::specs::Mains::read_outputs))]
fn read_outputs<'a>(parts: Parts, tokens: &'a [Lexeme]) -> Read<'a, Parts>
    ensures { Gives behind_by result (read_outputs parts tokens.now) }
{
    if parts.outputs {
        return Err(Stop::Fault(expected(tokens), tokens));
    }
    let rest = read_declared(behind(tokens))?;
    let Parts {
        inputs,
        outputs: _,
        sections,
    } = parts;
    let outputs = true;
    Ok((
        Parts {
            inputs,
            outputs,
            sections,
        },
        rest,
    ))
}

#[tactic(auto, unfolding(crate::specs::Mains::read_section))]
fn read_section<'a>(
    alloc: Global,
    section: Section,
    parts: Parts,
    tokens: &'a [Lexeme],
) -> Read<'a, Parts>
    ensures { Gives behind_by result (read_section 256 section parts tokens.now) }
{
    let Parts {
        inputs,
        outputs,
        sections,
    } = parts;
    let rest = open_brace(behind(tokens))?;
    let (sections, rest) = read_entries(alloc, section, sections, rest)?;
    let rest = close_brace(rest)?;
    Ok((
        Parts {
            inputs,
            outputs,
            sections,
        },
        rest,
    ))
}

/// Signals of a side that hasn't stood before, or a section.
#[tactic(auto, unfolding(crate::specs::Mains::read_part))]
fn read_part<'a>(alloc: Global, parts: Parts, tokens: &'a [Lexeme]) -> Read<'a, Parts>
    ensures { Gives behind_by result (read_part 256 parts tokens.now) }
{
    match front(tokens) {
        Symbol::Inputs => read_inputs(parts, tokens),
        Symbol::Outputs => read_outputs(parts, tokens),
        Symbol::Section(section) => read_section(alloc, section, parts, tokens),
        _ => Err(Stop::Fault(expected(tokens), tokens)),
    }
}

fn no_parts(alloc: Global) -> Parts
    ensures { result ≡ no_parts }
{
    let sections = Sections {
        initially: Items::new(alloc),
        preset: Items::new(alloc),
        require: Items::new(alloc),
        assert: Items::new(alloc),
        assume: Items::new(alloc),
        guarantee: Items::new(alloc),
    };
    Parts {
        inputs: false,
        outputs: false,
        sections,
    }
}

/// All parts up to the closing brace.
#[tactic(auto, unfolding(crate::specs::Mains::read_parts))]
fn read_parts<'a>(alloc: Global, tokens: &'a [Lexeme]) -> Read<'a, Parts>
    ensures { Gives behind_by result (read_parts 256 tokens.now) }
{
    let mut parts = no_parts(alloc);
    let mut rest = tokens;
    for _ in 0..tokens.len() {
        if !in_braces(front(rest)) {
            break;
        }
        let (next, after) = read_part(alloc, parts, rest)?;
        parts = next;
        rest = after;
    }
    Ok((parts, rest))
}

/// The closing brace, where the parts are whole.
#[tactic(auto, unfolding(crate::specs::Mains::close_main))]
fn close_main<'a>(parts: Parts, tokens: &'a [Lexeme]) -> Read<'a, Sections>
    ensures { Gives behind_by result (close_main parts tokens.now) }
{
    if in_braces(front(tokens)) {
        return Err(Stop::Fault(expected(tokens), tokens));
    }
    if !parts.inputs {
        return Err(Stop::Fault(TextFault::MissingPart(Part::Inputs), tokens));
    }
    if !parts.outputs {
        return Err(Stop::Fault(TextFault::MissingPart(Part::Outputs), tokens));
    }
    Ok((parts.sections, behind(tokens)))
}

/// The whole second part.
#[tactic(auto, unfolding(crate::specs::Mains::read_main))]
fn read_main<'a>(alloc: Global, tokens: &'a [Lexeme]) -> Read<'a, Sections>
    ensures { Gives behind_by result (read_main 256 tokens.now) }
{
    let rest = open_brace(main_word(tokens)?)?;
    let (parts, rest) = read_parts(alloc, rest)?;
    close_main(parts, rest)
}

/// The whole text.
#[tactic(auto, unfolding(crate::specs::Mains::read_text))]
pub fn read_text<'a>(alloc: Global, tokens: &'a [Lexeme]) -> Result<(Heading, Sections), Stop<'a>>
    ensures { Gives (λ r. r) result (read_text 256 tokens.now) }
{
    let (heading, rest) = read_heading(tokens)?;
    let (sections, rest) = read_main(alloc, rest)?;
    let _end = end(rest)?;
    Ok((heading, sections))
}
