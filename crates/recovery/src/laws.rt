//! What a rebuilding makes, in the words of the model of a cluster.

ghost use Rattle.std.specs.Prelude.{◌≡◌, ◌^◌, ℕ, List, Option, [], All, length};
ghost use Rattle.abs_model.specs.declared.Entry.{Entry};
ghost use Rattle.abs_model.specs.Array.{changed};
ghost use Rattle.cluster_model.specs.Tested.{Tested, tested};
ghost use Rattle.cluster_model.specs.Tree.{Item, item, root};
ghost use Rattle.cluster_model.specs.State.{Checkpoint, Running};
ghost use Rattle.cluster_model.specs.Step.{nodes_of, objects_of};
ghost use Rattle.cluster_model.specs.Fair.{IsItem};
ghost use Rattle.cluster_model.specs.Loose.{IsPut, held_item};
ghost use Rattle.cow_checkpoint.specs.Store.{Store};
ghost use Rattle.recovery.specs.Rebuilt.{Rebuilt, HasFetched};
ghost use Rattle.recovery.specs.Served.{IsHeldItem};
ghost use Rattle.recovery.specs.Real.{HasRealTexts};

/// The counts of a fetch are those of the items that were got.
pub fn counts_are_of_items()
    ensures nodes { (A : List Entry) (got : List (Item × List ℕ)) (b : Rebuilt) → HasFetched A got b →
        b.fetch.nodes ≡ nodes_of got }
    ensures objects { (A : List Entry) (got : List (Item × List ℕ)) (b : Rebuilt) → HasFetched A got b →
        length b.fetch.changes ≡ objects_of got }
{}

/// The changed array is the array with the texts that were got put in; and where nothing is missing it has the root
/// that was aimed at, whatever digests agree.
pub fn fetched_arrays_have_the_root()
    ensures put { (T : Tested) → let S = tested T in HasRealTexts S → (A : List Entry) →
        (got : List (Item × List ℕ)) (b : Rebuilt) → HasFetched A got b → IsPut S A got (changed b.fetch.changes A) }
    ensures root { (T : Tested) → let S = tested T in HasRealTexts S → (A : List Entry) →
        (got : List (Item × List ℕ)) (b : Rebuilt) → length A ≡ 16 ^ S.levels → HasFetched A got b →
        b.fetch.stand.rest ≡ [] → root S (changed b.fetch.changes A) ≡ b.root }
{}

/// What is held of an item in the tree is what a running replica of the model holds of it, its lies aside.
pub fn held_items_are_given()
    ensures { (T : Tested) → let S = tested T in HasRealTexts S → (l : Running) (s : Store) →
        length l.array ≡ 16 ^ S.levels → s.size ≡ 16 ^ S.levels → s.holds ≡ l.holds →
        All (λ (c : Checkpoint). length c.digests ≡ 16 ^ S.levels) l.holds →
        (place level number : ℕ) (text : Option (List ℕ)) → IsItem S (item level number) →
        IsHeldItem place level number l.array s text → text ≡ held_item S place l level number }
{}
