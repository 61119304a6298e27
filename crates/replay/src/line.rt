// A line of a list as numbers, and whether it ends in what a call answers.
use flat::structs::Refusal;

// No line of a list has so many.
pub const MOST: usize = 128;

// A line as far as it is read. `at` is the index of the number that is read now; of text it is past the last.
// No heap: there is room for the most numbers.
#[derive(Clone, Copy, Default)]
pub struct Line {
    numbers: [u64; MOST],
    at: usize,
}

impl Line {
    // By hand, byte after byte: the text of a line is not kept, so there is nothing to parse. In place: the line is too large to be moved at
    // each byte. A digit belongs to the number there, a space ends it, and a line with any other byte is text, such as a comment.
    pub fn take(&mut self, byte: u8) {
        if self.at >= MOST {
            return;
        }
        match byte {
            b'0'..=b'9' => {
                self.numbers[self.at] = with_digit(self.numbers[self.at], byte - b'0');
            }
            b' ' => self.at += 1,
            _ => self.at = MOST,
        }
    }

    pub fn is_text(&self) -> bool {
        self.at >= MOST
    }

    pub fn numbers(&self) -> &[u64] {
        &self.numbers
    }
}

// No number of a list is above 2^64 - 1.
fn with_digit(number: u64, digit: u8) -> u64 {
    number.saturating_mul(10).saturating_add(u64::from(digit))
}

// The number at this index, and 0 past the last.
pub fn at(numbers: &[u64], i: usize) -> u64 {
    numbers.get(i).copied().unwrap_or(0)
}

// The numbers from this index on: none past the last.
pub fn behind(numbers: &[u64], i: usize) -> &[u64] {
    &numbers[i.min(numbers.len())..]
}

// What a line can end in.
pub trait Recorded {
    // Whether these numbers, the last of a line, are it.
    fn is_recorded(self, numbers: &[u64]) -> bool;
}

// Whether the line's numbers from this index on are the answer.
pub fn ends<A: Recorded>(line: &[u64], from: usize, answer: A) -> bool {
    answer.is_recorded(behind(line, from))
}

// Whether the numbers are an answer: 0 and its values, or the refusal's number and its values. The C interface tells refusals by numbers.
pub fn answers(numbers: &[u64], refusal: Refusal, values: &[u64]) -> bool {
    if refusal.number != 0 {
        return are(numbers, &[refusal.number, refusal.a, refusal.b, refusal.c]);
    }
    at(numbers, 0) == 0 && are(behind(numbers, 1), values)
}

// Whether the numbers are these. What either lacks is 0.
pub fn are(numbers: &[u64], values: &[u64]) -> bool {
    (0..MOST).all(|i| at(numbers, i) == at(values, i))
}
