//! The lines of a text, one after another.

ghost use Rattle.std.specs.Prelude.{◌≡◌, ◌≢◌, ℕ, ◌+◌, ◌-◌, ◌<◌, ◌≤◌, ◌^◌, ◌∷◌, ◌++◌, length, IfOk, IfErr, OnErr};
ghost use Rattle.std.specs.List.{All};

use crate::errors::BadLine;

/// What is left of a text, and the number of lines that were taken from it.
#[derive(Drop)]
pub struct Lines<'a> {
    pub rest: &'a [u8],
    pub taken: u32,
    ghost counted: { taken + length rest.now < 2 ^ 32 - 1 },
}

impl<'a> Lines<'a> {
    /// The lines of a text of fewer than 2^32 - 1 bytes.
    pub fn of(text: &'a [u8]) -> Lines<'a>
        requires { length text.now < 2 ^ 32 - 1 }
        ensures rest { result.rest.now ≡ text.entry.now }
        ensures taken { result.taken ≡ 0 }
    {
        Lines {
            rest: text,
            taken: 0,
        }
    }

    /// The next line, without its line feed. BadLine where no line feed is left; then nothing is taken.
    pub fn next(&mut self) -> Result<&'a [u8], BadLine>
        ensures fed { IfOk result (λ line. self.old.rest.now ≡ line.now ++ 10 ∷ self.new.rest.now) }
        ensures whole { IfOk result (λ line. All (λ b. b ≢ 10) line.now) }
        ensures counted { IfOk result (λ line. self.new.taken ≡ self.old.taken + 1) }
        ensures bad { IfErr result (λ e. e.0 ≡ self.old.taken + 1) }
        ensures none { OnErr result (All (λ b. b ≢ 10) self.old.rest.now) }
    {
        let Some(end) = self.rest.iter().position(|b| *b == b'\n') else {
            return Err(BadLine(self.taken + 1));
        };
        let line = &self.rest[..end];
        self.rest = &self.rest[end + 1..];
        self.taken += 1;
        Ok(line)
    }
}
