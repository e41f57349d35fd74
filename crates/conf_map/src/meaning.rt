//! What holds of the arrays that servers and tables stand for.

ghost use Rattle.std.specs.Prelude.{◌≡◌, List, Option};
ghost use Rattle.nfs2_types.specs.declared.Limits.{Limits};
ghost use Rattle.server_trait.specs.Tree.{Tree};
ghost use Rattle.server_trait.specs.declared.bench.ConfTable.{ConfTable};
ghost use Rattle.abs_model.specs.declared.entry.Entry.{Entry};
ghost use Rattle.abs_model.specs.Valid.{Valid};
ghost use Rattle.conf_map.specs.Stands.{Stands};

/// A server and a table stand for one valid array at most.
pub fn one_array()
    ensures { (server : Option Tree) (table : ConfTable) (limits others : Limits) (A B : List Entry) →
        Stands server table A → Stands server table B → Valid limits A → Valid others B → A ≡ B }
{}
