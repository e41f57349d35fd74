//! Laws of the texts.

ghost use Rattle.std.specs.Prelude.{◌≡◌, ◌++◌, ◌<◌, ◌≤◌, ◌^◌, ℕ, List, [], All, length, slice_get, Some};
ghost use Rattle.nfs2_types.specs.declared.Limits.{Limits};
ghost use Rattle.abs_model.specs.declared.Entry.{Entry};
ghost use Rattle.xdr_core.specs.Grammar.{Spells};
ghost use Rattle.abs_model.specs.Array.{entry_at};
ghost use Rattle.abs_text.specs.Text.{entry_text, node_text, node_parts};
ghost use Rattle.abs_text.specs.Wordy.{IsGood};
ghost use Rattle.abs_text.specs.Forms.{entry_form};
ghost use Rattle.abs_text.specs.Spelled.{IsSpelled};

/// Two entries at one index of good arrays are equal where their texts are.
pub fn entries_are_spelled_apart()
    ensures { (limits : Limits) → limits.n < 2 ^ 32 → limits.t < 2 ^ 32 →
        (a b : List Entry) → IsGood limits a → IsGood limits b →
        (i : ℕ) (x y : Entry) → slice_get a i ≡ Some x → slice_get b i ≡ Some y →
        entry_text i x ≡ entry_text i y → x ≡ y }
{}

/// The text of a node gives back its sixteen digests of 32 bytes.
pub fn nodes_give_back_their_digests()
    ensures { (l k : ℕ) (ds : List (List ℕ)) → length ds ≡ 16 → All (λ d. length d ≡ 32) ds →
        node_parts (node_text l k ds) ≡ ds }
{}

/// The text of an entry is its one spelling: what is written is read again, what is read was that entry's text, and no
/// text begins another. Each entry of a good array has one.
pub fn entry_texts_are_read()
    ensures again { (i : ℕ) (e : Entry) → IsSpelled i e → Spells entry_form (i, e) (entry_text i e) }
    ensures text { (i : ℕ) (e : Entry) (text : List ℕ) → Spells entry_form (i, e) text → text ≡ entry_text i e }
    ensures no_prefix { (a b : ℕ × Entry) (text more : List ℕ) → Spells entry_form a text
        → Spells entry_form b (text ++ more) → (more ≡ []) × (a ≡ b) }
    ensures good { (limits : Limits) → limits.n < 2 ^ 32 → limits.t ≤ 16777216 →
        (A : List Entry) → IsGood limits A → (i : ℕ) → i < length A → IsSpelled i (entry_at A i) }
{}
