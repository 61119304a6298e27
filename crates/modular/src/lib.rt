// Modular arithmetic with a modulus from 1 to 2^64: the port of rosenpass's modular.rs to plain calls on u64.
#![tactic(auto)]

ghost use Rattle.std.specs.Prelude.{◌≡◌, ◌%◌};
ghost use Rattle.modular.specs.Modulus.{whole_of, full_range, try_new_of, is_full_range_of, modulus_of, contains_of, double_at, try_new_number_of, neg_mod, sub_mod, add_mod};

// The raw number is the modulus; raw 0 is the full range, 2^64. So every raw number is a modulus.
#[derive(Clone, Copy)]
pub struct Modulus(pub u64);

impl Modulus {
    pub fn new_full_range() -> Modulus
        ensures { result ≡ full_range }
    {
        Modulus(0)
    }

    // None of a zero modulus.
    pub fn try_new(modulus: u64) -> Option<Modulus>
        ensures { result ≡ try_new_of modulus }
    {
        if modulus == 0 {
            return None;
        }
        Some(Modulus(modulus))
    }

    pub fn is_full_range(self) -> bool
        ensures { result ≡ is_full_range_of self }
    {
        self.0 == 0
    }

    // The raw modulus; none of the full range.
    pub fn modulus(self) -> Option<u64>
        ensures { result ≡ modulus_of self }
    {
        if self.0 == 0 {
            return None;
        }
        Some(self.0)
    }

    pub fn contains(self, v: u64) -> bool
        ensures { result ≡ contains_of self v }
    {
        self.0 == 0 || v < self.0
    }

    // Twice 2^63 is the full range, stored as 0: the sum wraps there, and only there.
    pub fn double(self) -> Option<Modulus>
        ensures { result ≡ double_at 64 self }
    {
        let m = self.0;
        if m == 0 {
            return None;
        }
        if m > 9223372036854775808 {
            return None;
        }
        Some(Modulus(m.wrapping_add(m)))
    }

    // A number that is contained already is not divided.
    pub fn new_number(self, value: u64) -> u64
        ensures { result ≡ value % whole_of self }
    {
        if self.contains(value) {
            return value;
        }
        value % self.0
    }

    // The number itself; none where it is not contained.
    pub fn try_new_number(self, v: u64) -> Option<u64>
        ensures { result ≡ try_new_number_of self v }
    {
        self.contains(v).then_some(v)
    }

    // -0 is 0, and not the modulus.
    pub fn neg(self, value: u64) -> u64
        ensures { result ≡ neg_mod (whole_of self) value }
    {
        let m = self.0;
        if m == 0 {
            return 0u64.wrapping_sub(value);
        }
        let v = self.new_number(value);
        if v == 0 { 0 } else { m - v }
    }

    pub fn sub(self, a: u64, b: u64) -> u64
        ensures { result ≡ sub_mod (whole_of self) a b }
    {
        let m = self.0;
        if m == 0 {
            return a.wrapping_sub(b);
        }
        let x = self.new_number(a);
        let y = self.new_number(b);
        if y <= x { x - y } else { m - (y - x) }
    }

    // The sum is compared with the modulus before it is made, so that it cannot wrap.
    pub fn add(self, a: u64, b: u64) -> u64
        ensures { result ≡ add_mod (whole_of self) a b }
    {
        let m = self.0;
        if m == 0 {
            return a.wrapping_add(b);
        }
        let x = self.new_number(a);
        let y = self.new_number(b);
        let room = m - y;
        if x < room { x + y } else { x - room }
    }
}
