//! What holds of every store.

ghost use Rattle.std.specs.Prelude.{◌≡◌, ℕ, List, false};
ghost use Rattle.abs_model.specs.declared.Entry.{Entry};
ghost use Rattle.abs_model.specs.Array.{entry_at};
ghost use Rattle.abs_text.specs.Text.{entry_text};
ghost use Rattle.cluster_model.specs.State.{held_from};
ghost use Rattle.cluster_model.specs.Right.{is_told};
ghost use Rattle.conf_map.specs.Notice.{NoticedAll};
ghost use Rattle.cow_checkpoint.specs.Store.{Store, notices, all_noticed, IsCovered};

/// Held texts stay: where an array changes at most at indexes that were told before, each text held at a place not
/// above that of the newest checkpoint is held there again.
pub fn held_texts_stay()
    ensures { (A B : List Entry) (told : List ℕ) (s : Store) (place index : ℕ) → IsCovered place s.holds →
        (is_told index told ≡ false →
        entry_text index (entry_at B index) ≡ entry_text index (entry_at A index)) →
        held_from place index (all_noticed A told s).holds (entry_text index (entry_at B index))
        ≡ held_from place index s.holds (entry_text index (entry_at A index)) }
{}

/// What a store is after notices.
pub fn notices_in_turn()
    ensures { (A : List Entry) (told : List ℕ) (s t : Store) →
        NoticedAll (λ old B i new. new ≡ notices B i old) A s told t → t ≡ all_noticed A told s }
{}
