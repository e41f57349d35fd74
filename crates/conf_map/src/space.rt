//! The bytes that are used.

ghost use Rattle.std.specs.Prelude.{◌≡◌, ◌+◌, ◌-◌, ◌≤◌, ◌<◌, ◌^◌, List};
ghost use Rattle.server_trait.specs.declared.bench.ConfTable.{ConfTable};
ghost use Rattle.abs_model.specs.declared.entry.Entry.{Entry};
ghost use Rattle.abs_model.specs.Machine as machine;
ghost use Rattle.conf_map.specs.Tallied.{Tallied};

use nfs2_types::Limits;
use server_trait::ConfTable;

/// The bytes that a server has beside T, for its own directories and for what a call has under way.
pub const SPARE_BYTES: u64 = 1_048_576;

/// Whether more than T bytes would be used after `goes` bytes go and `comes` come. It takes no memory.
pub fn no_room(table: &ConfTable, limits: &Limits, goes: u32, comes: u32) -> bool
    ensures full { (A : List Entry) → Tallied table.now A → result ≡ machine.no_room A limits.now goes comes }
{
    let after = table
        .used
        .saturating_add(u64::from(comes))
        .saturating_sub(u64::from(goes));
    after > u64::from(limits.t)
}

/// Counts `comes` bytes in place of `goes`. It takes no memory.
pub fn shift_used(table: &mut ConfTable, goes: u32, comes: u32)
    requires fits { table.old.used + comes < 2 ^ 64 }
    requires has { goes ≤ table.old.used + comes }
    ensures { table.new ≡ record table.old { used = (table.old.used + comes) - goes } }
{
    table.used = (table.used + u64::from(comes)) - u64::from(goes);
}
