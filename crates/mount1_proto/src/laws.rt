//! What holds of the spellings of arguments.

ghost use Rattle.std.specs.Prelude.{◌≡◌, ◌++◌, List, ℕ, []};
ghost use Rattle.xdr_core.specs.Grammar.{Spells};
ghost use Rattle.mount1_proto.specs.Calls.{MountCall};
ghost use Rattle.mount1_proto.specs.Forms.{mount_form};

/// No arguments of a procedure begin others of it, and no bytes spell two.
pub fn no_prefix()
    ensures { (proc : ℕ) (a b : MountCall) (text more : List ℕ) → Spells (mount_form proc) a text
        → Spells (mount_form proc) b (text ++ more) → (more ≡ []) × (a ≡ b) }
{}
