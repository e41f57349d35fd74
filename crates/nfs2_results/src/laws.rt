//! What holds of the spellings of results.
ghost use Rattle.std.specs.Prelude.{◌≡◌, ◌++◌, List, ℕ, []};
ghost use Rattle.nfs2_types.specs.declared.results.NfsResult.{NfsResult};
ghost use Rattle.nfs2_results.specs.Reading.{SpellsResult};

/// No result of a procedure begins another of it, and no bytes spell two.
pub fn no_prefix()
    ensures { (proc : ℕ) (a b : NfsResult) (text more : List ℕ) → SpellsResult proc a text
        → SpellsResult proc b (text ++ more) → (more ≡ []) × (a ≡ b) }
{}
