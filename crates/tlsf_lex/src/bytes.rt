//! Kinds of bytes, and where bytes stand in a text.

ghost use Rattle.std.specs.Prelude.{◌≡◌, ◌<◌, ◌≤◌, ◌+◌, length, position, not, ◌==◌, IfSome};
ghost use Rattle.std.specs.List.{list_any};
ghost use Rattle.std.specs.Str.{bytes_eq};
ghost use Rattle.tlsf_lex.specs.Bytes.{is_blank, is_digit, starts_word, is_in_word, is_mark, is_full_mark, is_full_word, front_len, line_len, pair_place};

/// The words of the full format.
const FULL_WORDS: [&[u8]; 14] = [
    b"GLOBAL",
    b"PARAMETERS",
    b"DEFINITIONS",
    b"enum",
    b"NOT",
    b"AND",
    b"OR",
    b"IMPLIES",
    b"EQUIV",
    b"FORALL",
    b"EXISTS",
    b"SUM",
    b"PROD",
    b"Finite",
];

pub fn is_blank(b: u8) -> bool
    ensures { result ≡ is_blank b }
{
    b == b' ' || b == b'\t' || b == b'\n' || b == b'\r'
}

pub fn is_digit(b: u8) -> bool
    ensures { result ≡ is_digit b }
{
    b >= b'0' && b <= b'9'
}

pub fn starts_word(b: u8) -> bool
    ensures { result ≡ starts_word b }
{
    (b >= b'a' && b <= b'z') || (b >= b'A' && b <= b'Z') || b == b'_' || b == b'@'
}

pub fn is_in_word(b: u8) -> bool
    ensures { result ≡ is_in_word b }
{
    starts_word(b) || is_digit(b) || b == b'\''
}

pub fn is_mark(b: u8) -> bool
    ensures { result ≡ is_mark b }
{
    b"{}();:,!".iter().any(|m| *m == b)
}

pub fn is_full_mark(b: u8) -> bool
    ensures { result ≡ is_full_mark b }
{
    b"[]=+*~".iter().any(|m| *m == b)
}

pub fn is_full_word(word: &[u8]) -> bool
    ensures { result ≡ is_full_word word.now }
{
    is_one_of(word, &FULL_WORDS)
}

fn is_one_of(word: &[u8], words: &[&[u8]]) -> bool
    ensures { result ≡ list_any (λ w. bytes_eq w.now word.now) words.now }
{
    words.iter().any(|w| *w == word)
}

/// How many bytes at the front are part of a word.
pub fn word_len(text: &[u8]) -> usize
    ensures value { result ≡ front_len is_in_word text.now }
    ensures within { result ≤ length text.now }
{
    word_end(text).unwrap_or(text.len())
}

fn word_end(text: &[u8]) -> Option<usize>
    ensures value { result ≡ position (λ b. not (is_in_word b)) text.now }
    ensures within { IfSome result (λ place. place < length text.now) }
{
    text.iter().position(|b| !is_in_word(*b))
}

/// How many bytes at the front are digits.
pub fn digits_len(text: &[u8]) -> usize
    ensures value { result ≡ front_len is_digit text.now }
    ensures within { result ≤ length text.now }
{
    digits_end(text).unwrap_or(text.len())
}

fn digits_end(text: &[u8]) -> Option<usize>
    ensures value { result ≡ position (λ b. not (is_digit b)) text.now }
    ensures within { IfSome result (λ place. place < length text.now) }
{
    text.iter().position(|b| !is_digit(*b))
}

/// How many bytes stand before the end of the line.
pub fn line_len(text: &[u8]) -> usize
    ensures value { result ≡ line_len text.now }
    ensures within { result ≤ length text.now }
{
    place_of(b'\n', text).unwrap_or(text.len())
}

/// The first place at which the byte stands.
pub fn place_of(byte: u8, text: &[u8]) -> Option<usize>
    ensures value { result ≡ position (λ b. b == byte) text.now }
    ensures within { IfSome result (λ place. place < length text.now) }
{
    text.iter().position(|b| *b == byte)
}

/// The first place at which the one byte stands, and the other right behind it.
pub fn pair_place(one: u8, other: u8, text: &[u8]) -> Option<usize>
    ensures value { result ≡ pair_place one other text.now }
    ensures within { IfSome result (λ place. place + 1 < length text.now) }
{
    text.iter()
        .zip(text.iter().skip(1))
        .position(|(a, b)| *a == one && *b == other)
}
