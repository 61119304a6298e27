// Numbers of eight bytes in lent memory, most significant first.
ghost use Rattle.std.specs.Prelude.{◌≡◌, ◌+◌, ◌%◌, ◌<◌};
ghost use Rattle.copies.specs.Number.{big_endian_of};

// The place behind this one, round the memory: a compare, no remainder.
fn behind(place: usize, len: usize) -> usize
    requires { place < len }
    ensures { (result ≡ (place + 1) % len) × (result < len) }
{
    let next = place + 1;
    if next == len { 0 } else { next }
}

// The number in the eight bytes from this place on, which go on at the memory's start where it ends; 0 for a place outside.
#[tactic(auto, using(crate::proofs::NumberLaws::reading))]
pub fn big_endian(bytes: &[u8], place: u64) -> u64
    ensures { result ≡ big_endian_of bytes.now place }
{
    if place >= bytes.len() as u64 {
        return 0;
    }
    let mut next = place as usize;
    let mut number = [0; 8];
    for byte in &mut number {
        *byte = bytes[next];
        next = behind(next, bytes.len());
    }
    u64::from_be_bytes(number)
}
