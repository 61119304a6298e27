// Operations that are put together.
// Kinds are numbers, and the parameters come one by one: the C interface.
ghost use Rattle.std.specs.Prelude.{◌≡◌};
ghost use Rattle.operations.specs.Operation.{operation_of, default_operation};
ghost use Rattle.flat.specs.Operation.{type_at, flat_operation};

use flat::structs::Operation;

#[unsafe(no_mangle)]
pub extern "C" fn stripring_operation_new(typ: u64, off: u64, len: u64) -> Operation
    ensures { result ≡ flat_operation (operation_of (type_at typ) (record { 0 = off }) len) }
{
    stripring::operation::stripring_operation_new(typ, off, len)
}

#[unsafe(no_mangle)]
pub extern "C" fn stripring_operation_default() -> Operation
    ensures { result ≡ flat_operation default_operation }
{
    stripring::operation::stripring_operation_default()
}
