//! The bytes that fill an item up to a multiple of four.

ghost use Rattle.std.specs.Prelude.{◌≡◌, ◌≤◌};
ghost use Rattle.xdr_core.specs.Items as items;

/// How many zero bytes stand behind n bytes (RFC 4506, 3).
pub fn padding(n: usize) -> usize
    ensures count { result ≡ items.padding n }
    ensures few { result ≤ 3 }
{
    (4 - n % 4) % 4
}
