//! The first part of a text.

ghost use Rattle.std.specs.Prelude.{◌≡◌, drop, length};
ghost use Rattle.tlsf_basic.specs.Reads.{Gives, behind_by, front, passes};
ghost use Rattle.tlsf_basic.specs.Marks.{mark, is_comma, is_strict, is_name};
ghost use Rattle.tlsf_basic.specs.Headings.{read_string, read_kind, strict_by, read_semantics, read_tags, read_title, read_description, read_tag_item, read_semantics_item, read_target_item, read_item, read_items, close_heading, read_heading};

use crate::faults::{Part, TextFault};
use crate::stops::{
    Past, Read, Stop, behind, colon, comma, expected, front, in_braces, info_word, is_comma,
    open_brace, string,
};
use crate::symbols::{Lexeme, Symbol};
use word_core::Target;

/// The semantics of a specification: a kind, and whether it is strict.
#[derive(Debug, Clone, Copy, PartialEq, Eq)]
pub struct Semantics {
    pub kind: Target,
    pub strict: bool,
}

/// A kind, and where it stands.
#[derive(Debug, Clone, Copy, PartialEq, Eq)]
pub struct PlacedTarget {
    pub target: Target,
    pub place: usize,
}

/// The items that have stood.
#[derive(Debug, Clone, Copy, PartialEq, Eq)]
pub struct Items {
    pub title: bool,
    pub description: bool,
    pub tags: bool,
    pub semantics: Option<Semantics>,
    pub target: Option<PlacedTarget>,
}

/// What the first part says.
#[derive(Debug, Clone, Copy, PartialEq, Eq)]
pub struct Heading {
    pub semantics: Semantics,
    pub target: PlacedTarget,
}

/// `:` and a string.
#[tactic(auto, unfolding(crate::specs::Headings::read_string))]
fn read_string<'a>(tokens: &'a [Lexeme]) -> Past<'a>
    ensures { Gives (λ r. r.now) result (read_string tokens.now) }
{
    string(colon(tokens)?)
}

/// `Mealy` or `Moore`.
#[tactic(auto, unfolding(crate::specs::Headings::read_kind))]
fn read_kind<'a>(tokens: &'a [Lexeme]) -> Read<'a, PlacedTarget>
    ensures { Gives behind_by result (read_kind tokens.now) }
{
    let [first, rest @ ..] = tokens else {
        return Err(Stop::Fault(TextFault::Expected, tokens));
    };
    match first.symbol {
        Symbol::Kind(target) => {
            let place = first.from;
            Ok((PlacedTarget { target, place }, rest))
        }
        _ => Err(Stop::Fault(expected(tokens), tokens)),
    }
}

#[tactic(auto, unfolding(crate::specs::Marks::mark))]
fn strict<'a>(tokens: &'a [Lexeme]) -> Past<'a>
    ensures { Gives (λ r. r.now) result (mark is_strict tokens.now) }
{
    match front(tokens) {
        Symbol::Strict => Ok(behind(tokens)),
        _ => Err(Stop::Fault(expected(tokens), tokens)),
    }
}

/// A kind, perhaps with `Strict` beside it.
#[tactic(auto, unfolding(crate::specs::Headings::read_semantics))]
fn read_semantics<'a>(tokens: &'a [Lexeme]) -> Read<'a, Semantics>
    ensures { Gives behind_by result (read_semantics tokens.now) }
{
    if let Symbol::Strict = front(tokens) {
        let (kind, rest) = read_kind(comma(behind(tokens))?)?;
        let kind = kind.target;
        return Ok((Semantics { kind, strict: true }, rest));
    }
    let (kind, rest) = read_kind(tokens)?;
    read_strict(kind.target, rest)
}

fn read_strict<'a>(kind: Target, tokens: &'a [Lexeme]) -> Read<'a, Semantics>
    ensures { Gives behind_by result (strict_by (front tokens.now) kind tokens.now) }
{
    match front(tokens) {
        Symbol::Comma => Ok((Semantics { kind, strict: true }, strict(behind(tokens))?)),
        _ => Ok((
            Semantics {
                kind,
                strict: false,
            },
            tokens,
        )),
    }
}

#[tactic(auto, unfolding(crate::specs::Marks::mark))]
fn name<'a>(tokens: &'a [Lexeme]) -> Past<'a>
    ensures { Gives (λ r. r.now) result (mark is_name tokens.now) }
{
    match front(tokens) {
        Symbol::Name | Symbol::Kind(_) | Symbol::Strict => Ok(behind(tokens)),
        _ => Err(Stop::Fault(expected(tokens), tokens)),
    }
}

/// Names with `,` between them.
#[tactic(auto, unfolding(crate::specs::Headings::read_tags))]
fn read_tags<'a>(tokens: &'a [Lexeme]) -> Past<'a>
    ensures { Gives (λ r. r.now) result (read_tags tokens.now) }
{
    further_tags(name(tokens)?)
}

fn further_tags<'a>(tokens: &'a [Lexeme]) -> Past<'a>
    ensures { Gives (λ r. r.now) result (passes is_comma (λ u. mark is_name (drop 1 u)) (length tokens.now) tokens.now) }
{
    let mut rest = tokens;
    for _ in 0..tokens.len() {
        if !is_comma(front(rest)) {
            break;
        }
        rest = name(behind(rest))?;
    }
    Ok(rest)
}

#[tactic(auto, unfolding(crate::specs::Headings::read_title))]
fn read_title<'a>(items: Items, tokens: &'a [Lexeme]) -> Read<'a, Items>
    ensures { Gives behind_by result (read_title items tokens.now) }
{
    if items.title {
        return Err(Stop::Fault(expected(tokens), tokens));
    }
    let rest = read_string(behind(tokens))?;
    Ok((
        Items {
            title: true,
            ..items
        },
        rest,
    ))
}

#[tactic(auto, unfolding(crate::specs::Headings::read_description))]
fn read_description<'a>(items: Items, tokens: &'a [Lexeme]) -> Read<'a, Items>
    ensures { Gives behind_by result (read_description items tokens.now) }
{
    if items.description {
        return Err(Stop::Fault(expected(tokens), tokens));
    }
    let rest = read_string(behind(tokens))?;
    Ok((
        Items {
            description: true,
            ..items
        },
        rest,
    ))
}

#[tactic(auto, unfolding(crate::specs::Headings::read_tag_item))]
fn read_tag_item<'a>(items: Items, tokens: &'a [Lexeme]) -> Read<'a, Items>
    ensures { Gives behind_by result (read_tag_item items tokens.now) }
{
    if items.tags {
        return Err(Stop::Fault(expected(tokens), tokens));
    }
    let rest = read_tags(colon(behind(tokens))?)?;
    Ok((
        Items {
            tags: true,
            ..items
        },
        rest,
    ))
}

#[tactic(auto, unfolding(crate::specs::Headings::read_semantics_item))]
fn read_semantics_item<'a>(items: Items, tokens: &'a [Lexeme]) -> Read<'a, Items>
    ensures { Gives behind_by result (read_semantics_item items tokens.now) }
{
    if items.semantics.is_some() {
        return Err(Stop::Fault(expected(tokens), tokens));
    }
    let (semantics, rest) = read_semantics(colon(behind(tokens))?)?;
    Ok((
        Items {
            semantics: Some(semantics),
            ..items
        },
        rest,
    ))
}

#[tactic(auto, unfolding(crate::specs::Headings::read_target_item))]
fn read_target_item<'a>(items: Items, tokens: &'a [Lexeme]) -> Read<'a, Items>
    ensures { Gives behind_by result (read_target_item items tokens.now) }
{
    if items.target.is_some() {
        return Err(Stop::Fault(expected(tokens), tokens));
    }
    let (target, rest) = read_kind(colon(behind(tokens))?)?;
    Ok((
        Items {
            target: Some(target),
            ..items
        },
        rest,
    ))
}

/// An item that hasn't stood before.
#[tactic(auto, unfolding(crate::specs::Headings::read_item))]
fn read_item<'a>(items: Items, tokens: &'a [Lexeme]) -> Read<'a, Items>
    ensures { Gives behind_by result (read_item items tokens.now) }
{
    match front(tokens) {
        Symbol::Title => read_title(items, tokens),
        Symbol::Description => read_description(items, tokens),
        Symbol::Semantics => read_semantics_item(items, tokens),
        Symbol::Target => read_target_item(items, tokens),
        Symbol::Tags => read_tag_item(items, tokens),
        _ => Err(Stop::Fault(expected(tokens), tokens)),
    }
}

/// All items up to the closing brace.
#[tactic(auto, unfolding(crate::specs::Headings::read_items))]
fn read_items<'a>(tokens: &'a [Lexeme]) -> Read<'a, Items>
    ensures { Gives behind_by result (read_items tokens.now) }
{
    let mut items = Items {
        title: false,
        description: false,
        tags: false,
        semantics: None,
        target: None,
    };
    let mut rest = tokens;
    for _ in 0..tokens.len() {
        if !in_braces(front(rest)) {
            break;
        }
        let (next, after) = read_item(items, rest)?;
        items = next;
        rest = after;
    }
    Ok((items, rest))
}

/// The closing brace, where the items are whole.
#[tactic(auto, unfolding(crate::specs::Headings::close_heading))]
fn close_heading<'a>(items: Items, tokens: &'a [Lexeme]) -> Read<'a, Heading>
    ensures { Gives behind_by result (close_heading items tokens.now) }
{
    if in_braces(front(tokens)) {
        return Err(Stop::Fault(expected(tokens), tokens));
    }
    let Some(semantics) = items.semantics else {
        return Err(Stop::Fault(TextFault::MissingPart(Part::Semantics), tokens));
    };
    let Some(target) = items.target else {
        return Err(Stop::Fault(TextFault::MissingPart(Part::Target), tokens));
    };
    Ok((Heading { semantics, target }, behind(tokens)))
}

/// The whole first part.
#[tactic(auto, unfolding(crate::specs::Headings::read_heading))]
pub fn read_heading<'a>(tokens: &'a [Lexeme]) -> Read<'a, Heading>
    ensures { Gives behind_by result (read_heading tokens.now) }
{
    let rest = open_brace(info_word(tokens)?)?;
    let (items, rest) = read_items(rest)?;
    close_heading(items, rest)
}
