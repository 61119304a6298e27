// The list of the calls of modular. A line: op modulus a b some value.
use crate::line::{are, at, behind};
use flat::modulus::OptionU64;
use stripring::modulus;

// The table of the calls: a match, since a closure for each call would be found by its op as an arm is.
pub fn agrees(line: &[u64]) -> bool {
    let m = at(line, 1);
    let a = at(line, 2);
    let b = at(line, 3);
    let answer = match at(line, 0) {
        0 => some(modulus::stripring_modulus_new_full_range()),
        1 => modulus::stripring_modulus_try_new(m),
        2 => some(u64::from(modulus::stripring_modulus_is_full_range(m))),
        3 => modulus::stripring_modulus_modulus(m),
        4 => some(u64::from(modulus::stripring_modulus_contains(m, a))),
        5 => modulus::stripring_modulus_double(m),
        6 => some(modulus::stripring_modulus_new_number(m, a)),
        7 => modulus::stripring_modulus_try_new_number(m, a),
        8 => some(modulus::stripring_modulus_neg(m, a)),
        9 => some(modulus::stripring_modulus_sub(m, a, b)),
        10 => some(modulus::stripring_modulus_add(m, a, b)),
        _ => return false,
    };
    are(behind(line, 4), &[answer.some, answer.value])
}

// What a call that always answers comes to.
fn some(value: u64) -> OptionU64 {
    OptionU64 { some: 1, value }
}
