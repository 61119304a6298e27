// The calls of `modular`. A modulus is its raw number, and 0 is the full range.
ghost use Rattle.std.specs.Prelude.{◌≡◌, ◌%◌};
ghost use Rattle.modular.specs.Modulus.{whole_of, try_new_of, is_full_range_of, modulus_of, contains_of, double_at, try_new_number_of, neg_mod, sub_mod, add_mod};
ghost use Rattle.flat.specs.Modulus.{modulus_at, flat_modulus, flat_number};

use flat::modulus::{OptionU64, flat_modulus, flat_number};
use modular::Modulus;

pub fn stripring_modulus_new_full_range() -> u64
    ensures { result ≡ 0 }
{
    Modulus::new_full_range().0
}

pub fn stripring_modulus_try_new(modulus: u64) -> OptionU64
    ensures { result ≡ flat_modulus (try_new_of modulus) }
{
    flat_modulus(Modulus::try_new(modulus))
}

pub fn stripring_modulus_is_full_range(modulus: u64) -> bool
    ensures { result ≡ is_full_range_of (modulus_at modulus) }
{
    Modulus(modulus).is_full_range()
}

pub fn stripring_modulus_modulus(modulus: u64) -> OptionU64
    ensures { result ≡ flat_number (modulus_of (modulus_at modulus)) }
{
    flat_number(Modulus(modulus).modulus())
}

pub fn stripring_modulus_contains(modulus: u64, v: u64) -> bool
    ensures { result ≡ contains_of (modulus_at modulus) v }
{
    Modulus(modulus).contains(v)
}

pub fn stripring_modulus_double(modulus: u64) -> OptionU64
    ensures { result ≡ flat_modulus (double_at 64 (modulus_at modulus)) }
{
    flat_modulus(Modulus(modulus).double())
}

pub fn stripring_modulus_new_number(modulus: u64, value: u64) -> u64
    ensures { result ≡ value % whole_of (modulus_at modulus) }
{
    Modulus(modulus).new_number(value)
}

pub fn stripring_modulus_try_new_number(modulus: u64, v: u64) -> OptionU64
    ensures { result ≡ flat_number (try_new_number_of (modulus_at modulus) v) }
{
    flat_number(Modulus(modulus).try_new_number(v))
}

pub fn stripring_modulus_neg(modulus: u64, value: u64) -> u64
    ensures { result ≡ neg_mod (whole_of (modulus_at modulus)) value }
{
    Modulus(modulus).neg(value)
}

pub fn stripring_modulus_sub(modulus: u64, a: u64, b: u64) -> u64
    ensures { result ≡ sub_mod (whole_of (modulus_at modulus)) a b }
{
    Modulus(modulus).sub(a, b)
}

pub fn stripring_modulus_add(modulus: u64, a: u64, b: u64) -> u64
    ensures { result ≡ add_mod (whole_of (modulus_at modulus)) a b }
{
    Modulus(modulus).add(a, b)
}
