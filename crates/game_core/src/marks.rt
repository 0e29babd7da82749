//! Marks of the entries.

ghost use Rattle.std.specs.Prelude.{◌≡◌, ◌<◌, length};
ghost use Rattle.game_core.specs.Board.{open_count, open_place, mark_at};

/// How many entries aren't fresh.
pub fn count_open(marks: &[bool]) -> usize
    ensures { result ≡ open_count marks.now }
{
    let mut open = 0;
    for fresh in marks {
        if !*fresh {
            open += 1;
        }
    }
    open
}

/// The place of the entry number `number` among those that aren't fresh.
pub fn find_open(marks: &[bool], number: usize) -> usize
    requires { number < open_count marks.now }
    ensures place { result ≡ open_place marks.now number }
    ensures within { result < length marks.now }
{
    let mut before = 0;
    for (i, fresh) in marks.iter().enumerate() {
        if !*fresh {
            if before == number {
                return i;
            }
            before += 1;
        }
    }
    unreachable!()
}
