//! What fetches make, in the words of the model of a cluster.

ghost use Rattle.std.specs.Prelude.{◌≡◌, ◌↔◌, ◌^◌, ℕ, List, [], ◌∷◌, All, length, map};
ghost use Rattle.std.specs.List.Sorted.{IsStrictlyIncreasing};
ghost use Rattle.cluster_model.specs.Tested.{Tested, tested};
ghost use Rattle.cluster_model.specs.Tree.{Item};
ghost use Rattle.cluster_model.specs.Fair.{IsItem};
ghost use Rattle.cluster_model.specs.Walk.{IsWalk, IsWholeWalk, IsFormed};
ghost use Rattle.partition_tree.specs.Digests.{digests, digest_at};
ghost use Rattle.state_transfer.specs.Fetch.{Fetch, begun};
ghost use Rattle.state_transfer.specs.Got.{HasGot, IsReal, fetched, entries_got, change_texts};

/// What a fetch got is as far as a walk of the model came, with node texts of the grammar and items in the tree; and
/// nothing is missing exactly where the walk is whole.
pub fn fetches_are_walks()
    ensures { (T : Tested) → let S = tested T in IsReal S → (own : List (List ℕ)) (place : ℕ) (root : List ℕ) →
        (got : List (Item × List ℕ)) (end : Fetch) → HasGot (begun own place S.levels root) got end →
        IsWalk S own S.levels ((0, root) ∷ []) got × All (IsFormed S) got × All (λ g. IsItem S g.0) got
        × ((end.stand.rest ≡ []) ↔ IsWholeWalk S own S.levels ((0, root) ∷ []) got) }
{}

/// Where nothing is missing, the own texts with those of the entries that were got put in have the root aimed at,
/// whatever digests agree.
pub fn fetched_texts_have_the_root()
    ensures { (texts : List (List ℕ)) (levels place : ℕ) (root : List ℕ) → length texts ≡ 16 ^ levels →
        (got : List (Item × List ℕ)) (end : Fetch) → HasGot (begun (digests texts) place levels root) got end →
        end.stand.rest ≡ [] → digest_at (digests (fetched got texts)) levels 0 ≡ root }
{}

/// The changes are the entries whose texts were got, in rising order.
pub fn fetches_gather_changes()
    ensures texts { (own : List (List ℕ)) (place levels : ℕ) (root : List ℕ) →
        (got : List (Item × List ℕ)) (end : Fetch) → HasGot (begun own place levels root) got end →
        change_texts end.changes ≡ entries_got got }
    ensures rising { (own : List (List ℕ)) (place levels : ℕ) (root : List ℕ) →
        (got : List (Item × List ℕ)) (end : Fetch) → HasGot (begun own place levels root) got end →
        IsStrictlyIncreasing (map (λ c. c.index) end.changes) }
{}
