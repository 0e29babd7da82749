//! What ends a call in place of an answer.

ghost use Rattle.std.specs.Prelude.{◌≡◌, codes};
ghost use Rattle.bonsai_run.specs.Faults.{named, status_of, fault_words, part_words, lexical_words};

use tlsf_basic::{Part, TextFault};
use tlsf_lex::LexFault;

/// Which of an order's two names: the specification, or the machine or lasso.
#[derive(Debug, Clone, Copy, PartialEq, Eq)]
pub enum Source {
    Specification,
    Other,
}

/// What ends a call in place of an answer. What has a number has it of a byte, a line or a state.
#[derive(Debug, Clone, Copy, PartialEq, Eq)]
pub enum Fault {
    /// The answer can't be written.
    Unwritten,
    /// The words are no order.
    Usage,
    /// A text can't be read.
    Unread(Source),
    /// The text is no specification.
    Text { what: TextFault, place: usize },
    /// The line isn't as the grammar of a machine or a lasso demands.
    Line(u32),
    /// Some valuation is held by no line of the state.
    Gap(u64),
    /// The own choice of the state depends on the input.
    NotFirst(u64),
    /// A text has more than 1,048,576 bytes.
    Length(Source),
    Formulas,
    Covers,
    States,
    Memory,
}

/// The usage text.
pub const USAGE: &[u8] =
    b"usage: bonsai synth NAME [--bound K] [--first K] [--step S] [--workers N] [--as-written]\n       bonsai downset NAME --player system|environment --bound K [--as-written]\n       bonsai check NAME MACHINE --bound K [--as-written]\n       bonsai eval NAME LASSO [--as-written]\n       bonsai gen N [--workers N]\n";

/// One of two names.
pub fn named<'a>(name: &'a [u8], other: &'a [u8], source: Source) -> &'a [u8]
    ensures { result.now ≡ named name.now other.now source }
{
    match source {
        Source::Specification => name,
        Source::Other => other,
    }
}

/// The status that tells the fault.
pub fn status_of(fault: Fault) -> u8
    ensures { result ≡ status_of fault }
{
    match fault {
        Fault::Unwritten => 1,
        Fault::Usage => 2,
        Fault::Unread(_) => 3,
        Fault::Text { .. } | Fault::Line(_) | Fault::Gap(_) | Fault::NotFirst(_) => 4,
        Fault::Length(_) | Fault::Formulas | Fault::Covers | Fault::States => 5,
        Fault::Memory => 6,
    }
}

/// What is wrong with a specification's text, in words.
pub fn fault_words(what: TextFault) -> &'static [u8]
    ensures { result.now ≡ fault_words what }
{
    match what {
        TextFault::Lex(lexical) => lexical_words(lexical),
        TextFault::Expected => b"not expected here",
        TextFault::NeedsParens => b"needs parentheses",
        TextFault::TooDeep => b"nested too deeply",
        TextFault::FullFormat => b"full format is not read",
        TextFault::MissingPart(part) => part_words(part),
        TextFault::DuplicateSignal => b"signal declared twice",
        TextFault::UnknownSignal => b"unknown signal",
        TextFault::MixedTarget => b"semantics and target differ",
        TextFault::TooManySignals => b"more than 40 signals",
    }
}

/// Why a text has no tokens, in words.
fn lexical_words(what: LexFault) -> &'static [u8]
    ensures { result.now ≡ lexical_words what }
{
    match what {
        LexFault::BadByte => b"byte not allowed",
        LexFault::OpenComment => b"comment is not closed",
        LexFault::NestedComment => b"comment inside a comment",
        LexFault::OpenString => b"string is not closed",
    }
}

/// That a part is missing, in words.
fn part_words(part: Part) -> &'static [u8]
    ensures { result.now ≡ part_words part }
{
    match part {
        Part::Info => b"missing INFO",
        Part::Main => b"missing MAIN",
        Part::Semantics => b"missing SEMANTICS",
        Part::Target => b"missing TARGET",
        Part::Inputs => b"missing INPUTS",
        Part::Outputs => b"missing OUTPUTS",
    }
}
