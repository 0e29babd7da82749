//! The values of options and of plain words.

ghost use Rattle.std.specs.Prelude.{◌≡◌, ◌<◌, ◌≤◌, IfOk, IfSome, MatchResult, Some, None, string_bytes};
ghost use Rattle.clap.specs.Words.{first_value, found_of};
ghost use Rattle.bonsai_words.specs.Order.{IsNamed, IsWithin};
ghost use Rattle.bonsai_words.specs.Ordered.{name_in, number_in, number_or, player_in};
ghost use Rattle.bonsai_words.specs.declared.orders.WordsError.TheVariants.{Usage};

use crate::orders::WordsError;
use clap::ArgMatches;
use std::alloc::Global;
use word_core::Player;

/// The number of a text: `0`, or digits of which the first isn't `0`, if it lies in this range.
pub fn parse_number(text: &str, least: u32, most: u32) -> Option<u32>
    ensures { result ≡ number_in least most text.now }
{
    let bytes = text.as_bytes();
    if bytes.is_empty() || bytes[0] == b'+' || (bytes[0] == b'0' && bytes.len() > 1) {
        return None;
    }
    match text.parse::<u32>() {
        Ok(number) if least <= number && number <= most => Some(number),
        _ => None,
    }
}

/// The number that an option or a plain word gives, or the default where it is left out.
pub fn number_of(
    matches: &ArgMatches<'_>,
    id: &str,
    default: Option<u32>,
    least: u32,
    most: u32,
) -> Result<u32, WordsError>
    requires { IfSome default (IsWithin least most) }
    ensures within { IfOk result (λ n. IsWithin least most n) }
    ensures exact { MatchResult result
        (λ n. number_or default least most (first_value (found_of matches.now) id.now) ≡ Some n)
        (λ e. number_or default least most (first_value (found_of matches.now) id.now) ≡ None) }
{
    match matches.get_str(id) {
        Some(text) => parse_number(text, least, most).ok_or(WordsError::Usage),
        None => default.ok_or(WordsError::Usage),
    }
}

/// The name that a plain word gives. It isn't empty.
pub fn name_of(alloc: Global, matches: &ArgMatches<'_>, id: &str) -> Result<String, WordsError>
    ensures named { IfOk result IsNamed }
    ensures exact { MatchResult result
        (λ s. name_in (first_value (found_of matches.now) id.now) ≡ Some (string_bytes s))
        (λ e. (e ≡ Usage) → name_in (first_value (found_of matches.now) id.now) ≡ None) }
{
    match matches.get_str(id) {
        Some(name) if !name.is_empty() => Ok(String::from_str(alloc, name)?),
        _ => Err(WordsError::Usage),
    }
}

/// The player that an option names.
pub fn player_of(matches: &ArgMatches<'_>, id: &str) -> Result<Player, WordsError>
    ensures { MatchResult result
        (λ p. player_in (first_value (found_of matches.now) id.now) ≡ Some p)
        (λ e. player_in (first_value (found_of matches.now) id.now) ≡ None) }
{
    match matches.get_str(id) {
        Some("system") => Ok(Player::System),
        Some("environment") => Ok(Player::Environment),
        _ => Err(WordsError::Usage),
    }
}
