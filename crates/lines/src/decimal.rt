// Numbers in decimal: read at an index of a line, and written behind an index of a lent buffer.
ghost use Rattle.std.specs.Prelude.{◌≡◌, ◌≤◌, length, drop};
ghost use Rattle.lines.specs.Decimal.{decimal, digits_on, number_in, number_at};
ghost use Rattle.lines.specs.Text.{filled, put_of};

use crate::text::put;
use itoa::Buffer;

// A number, and the index behind it.
#[derive(Clone, Copy)]
pub struct Number {
    pub n: u64,
    pub next: usize,
}

// ---- in, by hand, digit by digit: where the digits end is not known before, and the library's `parse` takes a whole text. Line and index, as
// all of this crate: they answer for any index
// The number whose digits begin at `at`: all of them, but of a number that begins with 0 only that. None where no digit is, and
// from 2^64 on.
pub fn number_at(line: &[u8], at: usize) -> Option<Number>
    ensures { result ≡ number_at line.now at }
{
    match line.get(at)? {
        b'0' => Some(Number { n: 0, next: at + 1 }),
        b'1'..=b'9' => digits_on(line, at),
        _ => None,
    }
}

// The number that the digits from `at` on make. An index and no iterator: it is part of the answer.
fn digits_on(line: &[u8], at: usize) -> Option<Number>
    requires { at ≤ length line.now }
    ensures { result ≡ number_in line.now (digits_on 0 (drop at line.now)) }
{
    let mut n: u64 = 0;
    for next in at..line.len() {
        let byte = line[next];
        if !byte.is_ascii_digit() {
            return Some(Number { n, next });
        }
        n = n.checked_mul(10)?.checked_add(u64::from(byte - b'0'))?;
    }
    Some(Number {
        n,
        next: line.len(),
    })
}

// ---- out
// The number at `at`; answers the index behind it. Without room for all its digits nothing changes, and the index is `at`.
pub fn put_decimal(out: &mut [u8], at: usize, n: u64) -> usize
    ensures { filled result out.new ≡ put_of (decimal n) (filled at out.old) }
{
    // One digit is written by itself: the library is slower at it (docs/DESIGN-PASS.md, "Tried and measured").
    if n < 10 {
        return put(out, at, &[b'0' + n as u8]);
    }
    let mut digits = Buffer::new();
    put(out, at, digits.format(n).as_bytes())
}
