// Of what is asked, how much is taken and how much is left over.
ghost use Rattle.std.specs.Prelude.{◌≡◌};
ghost use Rattle.operations.specs.Portion.{portion_of};

#[derive(Clone, Copy)]
pub struct Portion {
    pub len: u64,
    pub remainder: u64,
}

// As much as there is room for. The only subtraction that makes a remainder.
pub fn portion_of(asked: u64, room: u64) -> Portion
    ensures { result ≡ portion_of asked room }
{
    let len = asked.min(room);
    Portion {
        len,
        remainder: asked - len,
    }
}
