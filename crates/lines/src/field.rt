// A number as a field of a line, at an index, with what must stand behind it: a space, or nothing.
ghost use Rattle.std.specs.Prelude.{◌≡◌};
ghost use Rattle.lines.specs.Field.{spaced_at, last_at};

use crate::decimal::{Number, number_at};

// A number and a space; the index is the one behind the space.
pub fn spaced(line: &[u8], at: usize) -> Option<Number>
    ensures { result ≡ spaced_at line.now at }
{
    let Number { n, next } = number_at(line, at)?;
    match line.get(next)? {
        b' ' => Some(Number { n, next: next + 1 }),
        _ => None,
    }
}

// A number, and the line's end.
pub fn last(line: &[u8], at: usize) -> Option<Number>
    ensures { result ≡ last_at line.now at }
{
    let number = number_at(line, at)?;
    if number.next < line.len() {
        return None;
    }
    Some(number)
}
