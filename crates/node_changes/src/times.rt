//! The times of an object.

ghost use Rattle.std.specs.Prelude.{◌≡◌, ◌<◌, List, Option, length, set};
ghost use Rattle.server_trait.specs.Tree.{Tree};
ghost use Rattle.abs_model.specs.declared.entry.Entry.{Entry};
ghost use Rattle.abs_model.specs.Array.{entry_at};
ghost use Rattle.conf_map.specs.Stands.{Stands};
ghost use Rattle.conf_map.specs.Tables.{IsLive};
ghost use Rattle.conf_map.specs.Tallied.{Tallied};
ghost use Rattle.node_changes.specs.Rows.{entry_timed};

use conf_map::{Located, time_row};
use nfs2_types::Time;
use server_trait::ConfTable;

/// Sets the three times of a live object. It asks the server nothing, and takes no memory.
pub fn set_times(table: &mut ConfTable, at: &Located, atime: Time, mtime: Time, ctime: Time)
    requires live { IsLive table.old.rows.items at.now }
    ensures stands { (s : Option Tree) (A : List Entry) → Stands s table.old A →
        Stands s table.new (set A at.now.index (entry_timed atime mtime ctime (entry_at A at.now.index))) }
    ensures tallied { (s : Option Tree) (A : List Entry) → Stands s table.old A → Tallied table.old A →
        Tallied table.new (set A at.now.index (entry_timed atime mtime ctime (entry_at A at.now.index))) }
    ensures live { IsLive table.new.rows.items at.now }
{
    time_row(table, at.index, atime, mtime, ctime);
}
