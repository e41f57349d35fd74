//! What holds of the spellings of arguments.

ghost use Rattle.std.specs.Prelude.{◌≡◌, ◌++◌, List, ℕ, []};
ghost use Rattle.xdr_core.specs.Grammar.{Spells};
ghost use Rattle.nfs2_types.specs.Call.{Call};
ghost use Rattle.nfs2_args.specs.Forms.{args_form};

/// No arguments of a procedure begin others of it.
pub fn no_prefix()
    ensures { (proc : ℕ) (a b : Call) (text more : List ℕ) → Spells (args_form proc) a text
        → Spells (args_form proc) b (text ++ more) → (more ≡ []) × (a ≡ b) }
{}
