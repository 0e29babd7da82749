//! The symbols of the grammar.

use word_core::Target;

/// The sections of formulas.
#[derive(Debug, Clone, Copy, PartialEq, Eq)]
pub enum Section {
    Initially,
    Preset,
    Require,
    Assert,
    Assume,
    Guarantee,
}

/// The operators before their operand.
#[derive(Debug, Clone, Copy, PartialEq, Eq)]
pub enum Unary {
    Not,
    Next,
    Finally,
    Globally,
}

/// The operators that stand alone between two operands.
#[derive(Debug, Clone, Copy, PartialEq, Eq)]
pub enum Lone {
    Equiv,
    Until,
    Release,
    Weak,
}

/// The sides of the signals.
#[derive(Debug, Clone, Copy, PartialEq, Eq)]
pub enum Side {
    Input,
    Output,
}

/// What a token is to the grammar.
#[derive(Debug, Clone, Copy, PartialEq, Eq)]
pub enum Symbol {
    /// The end of the text.
    End,
    Info,
    Main,
    Title,
    Description,
    Semantics,
    Target,
    Tags,
    Inputs,
    Outputs,
    Section(Section),
    /// `Mealy` or `Moore` in the first part.
    Kind(Target),
    /// `Strict` in the first part.
    Strict,
    /// Another name in the first part.
    Name,
    /// A name that is declared as a signal of this side.
    Declared(Side),
    /// A declared name in a formula, and its number.
    Signal(u32),
    /// A name in a formula that isn't declared.
    Unknown,
    True,
    False,
    Unary(Unary),
    And,
    Or,
    Arrow,
    Lone(Lone),
    OpenBrace,
    CloseBrace,
    Open,
    Close,
    Semicolon,
    Colon,
    Comma,
    /// A string.
    Text,
    /// A token of the full format.
    Full,
}

/// A token with what it is to the grammar, and where its bytes stand.
#[derive(Debug, Clone, Copy, PartialEq, Eq)]
pub struct Lexeme {
    pub symbol: Symbol,
    pub from: usize,
    pub to: usize,
}
