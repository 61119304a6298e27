// What the calls of `modular` answer, where there may be none.
ghost use Rattle.std.specs.Prelude.{◌≡◌};
ghost use Rattle.flat.specs.Modulus.{flat_modulus, flat_number};

// A number where `some` is 1; none where it is 0, and then `value` is 0.
// The C interface: a flag beside a value.
#[repr(C)]
#[derive(Clone, Copy, Default)]
pub struct OptionU64 {
    pub some: u64,
    pub value: u64,
}

pub fn flat_modulus(m: Option<modular::Modulus>) -> OptionU64
    ensures { result ≡ flat_modulus m }
{
    flat_number(m.map(|m| m.0))
}

pub fn flat_number(n: Option<u64>) -> OptionU64
    ensures { result ≡ flat_number n }
{
    match n {
        Some(value) => OptionU64 { some: 1, value },
        None => OptionU64::default(),
    }
}
