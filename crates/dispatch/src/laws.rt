//! What holds of answers.

ghost use Rattle.std.specs.Prelude.{List, ℕ};
ghost use Rattle.nfs2_types.specs.declared.Limits.{Limits};
ghost use Rattle.nfs2_types.specs.declared.Time.{Time};
ghost use Rattle.xdr_core.specs.Items.{IsBytes};
ghost use Rattle.abs_model.specs.declared.Entry.{Entry};
ghost use Rattle.dispatch.specs.Answer.{answer};
ghost use Rattle.dispatch.specs.Spelled.{IsAnswer};

/// The answer by the grammars: silence where no header of a call begins the message, the refusal of a header that is
/// refused, and of a call of NFS or of MOUNT its result where its arguments are spelled, and GARBAGE_ARGS where none
/// are.
pub fn answers_are_spelled()
    ensures { (A : List Entry) (limits : Limits) (t : Time) (bytes : List ℕ) → IsBytes bytes
        → IsAnswer A limits t bytes (answer A limits t bytes) }
{}
