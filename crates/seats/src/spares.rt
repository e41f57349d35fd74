//! Servers that no replica has.

ghost use Rattle.std.specs.Prelude.{◌≡◌, ◌<◌, IsSomeAnd, slice_get, swap, vec_len};
ghost use Rattle.seats.specs.Positions.{ChangesAt};
ghost use Rattle.seats.specs.Spare.{IsEmptyTable};

use server_trait::{Bench, ConfTable};
use std::alloc::Global;

/// Exchanges the servers of two positions. The table of the spare one becomes empty. It takes no memory.
pub fn exchange(alloc: Global, bench: &mut Bench, r: usize, spare: usize)
    requires server { r < vec_len bench.old.servers }
    requires spare_server { spare < vec_len bench.old.servers }
    requires spare_table { spare < vec_len bench.old.tables }
    ensures servers { bench.new.servers.items ≡ swap bench.old.servers.items r spare }
    ensures tables { ChangesAt spare bench.old.tables.items bench.new.tables.items }
    ensures cleared { IsSomeAnd (slice_get bench.new.tables.items spare) IsEmptyTable }
    ensures downs { bench.new.downs ≡ bench.old.downs }
{
    bench.servers.swap(r, spare);
    bench.tables[spare] = ConfTable::empty(alloc);
}
