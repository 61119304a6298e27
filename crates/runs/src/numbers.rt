// Numbers that wrap nowhere in a run: the wrapping calls ask for no bound. And random ones.

pub fn add(a: u64, b: u64) -> u64 {
    a.wrapping_add(b)
}

pub fn sub(a: u64, b: u64) -> u64 {
    a.wrapping_sub(b)
}

// No run divides by 0.
pub fn rem(a: u64, m: u64) -> u64 {
    a.checked_rem(m).unwrap_or(0)
}

// Each run has random numbers of its own.
pub fn seed(len: u64, start: u64) -> u64 {
    0x9e3779b97f4a7c15 ^ (len << 40) ^ (start << 20)
}

// Marsaglia's xorshift: it takes every number but 0 in turn.
pub fn random(x: u64) -> u64 {
    let a = x ^ (x << 13);
    let b = a ^ (a >> 7);
    b ^ (b << 17)
}
