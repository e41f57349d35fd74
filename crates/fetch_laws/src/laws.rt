//! What a Fetch is, in the words of the model of a cluster.

ghost use Rattle.std.specs.Prelude.{◌≡◌, ◌≤◌, ◌∷◌, ℕ, List};
ghost use Rattle.nfs2_types.specs.declared.Limits.{Limits};
ghost use Rattle.abs_model.specs.declared.Entry.{Entry};
ghost use Rattle.abs_text.specs.Wordy.{IsGood};
ghost use Rattle.cluster_model.specs.Tree.{Item, item, item_text, root};
ghost use Rattle.cluster_model.specs.State.{Fetching, Rebuilding};
ghost use Rattle.cluster_model.specs.Moments.{Moment, Faults, replica};
ghost use Rattle.cluster_model.specs.Step.{FetchEnd};
ghost use Rattle.cluster_model.specs.Good.{AllGood};
ghost use Rattle.cluster_model.specs.Walk.{IsWalkedFetch};
ghost use Rattle.service_laws.specs.Served.{IsSized, service};
ghost use Rattle.state_transfer.specs.Fetch.{Fits};
ghost use Rattle.recovery.specs.Rebuilt.{Rebuilt, HasFetched};
ghost use Rattle.fetch_laws.specs.Made.{FetchMade, AreApartFrom};

/// A source that has an array with the root that was aimed at has, of the item that is next, a text that is taken,
/// where no text that was got shares a digest with another one of that array.
pub fn true_items_fit()
    ensures { (limits : Limits) → IsSized limits → limits.t ≤ 16777216 → let S = service limits in
        (A c : List Entry) → IsGood limits A → IsGood limits c →
        (got : List (Item × List ℕ)) (b : Rebuilt) → HasFetched A got b → b.root ≡ root S c → AreApartFrom S c got →
        (x : ℕ × List ℕ) (xs : List (ℕ × List ℕ)) → b.fetch.stand.rest ≡ x ∷ xs →
        Fits b.fetch.stand.level x (item_text S c (item b.fetch.stand.level x.0)) }
{}

/// What the code does in a Fetch is a walked fetch, where arrays are good.
pub fn made_fetches_are_walked()
    ensures { (limits : Limits) → IsSized limits → limits.t ≤ 16777216 → let S = service limits in
        (faults : Faults) (r n : ℕ) (m : Moment) (b : Fetching) (items : List (Item × List ℕ)) (end : FetchEnd) →
        AllGood S m.state → (replica m.state r).condition ≡ Rebuilding b → FetchMade limits faults r n m b items end →
        IsWalkedFetch S faults r n m b items end }
{}
