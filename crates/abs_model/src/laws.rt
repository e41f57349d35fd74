//! Laws of the machine, over every array and every call.

ghost use Rattle.std.specs.Prelude.{◌≡◌, ◌≢◌, ◌≤◌, ◌<◌, ℕ, List, AllPairs, Contains, length, true, false};
ghost use Rattle.nfs2_types.specs.declared.Limits.{Limits};
ghost use Rattle.nfs2_types.specs.declared.Cred.{Cred};
ghost use Rattle.nfs2_types.specs.declared.Time.{Time};
ghost use Rattle.nfs2_types.specs.Call.{Call, call_fits};
ghost use Rattle.nfs2_types.specs.Times.{is_time};
ghost use Rattle.abs_model.specs.declared.entry.Entry.{Entry};
ghost use Rattle.abs_model.specs.Array.{entry_at, empty_array};
ghost use Rattle.abs_model.specs.Histories.{GoesOn, Request, after_all};
ghost use Rattle.abs_model.specs.Machine.{array_after, is_stale, result_of, told};
ghost use Rattle.abs_model.specs.Shown.{shows_objects};
ghost use Rattle.abs_model.specs.Valid.{Valid};

/// A valid array stays valid.
pub fn stays_valid()
    ensures { (limits : Limits) (array : List Entry) (cred : Cred) (t : Time) (call : Call) →
        is_time t ≡ true → call_fits call ≡ true → Valid limits array →
        Valid limits (array_after array limits cred t call) }
{}

/// An entry that is not told is unchanged.
pub fn untold_stays()
    ensures { (limits : Limits) (array : List Entry) (cred : Cred) (t : Time) (call : Call)
        (index : ℕ) →
        (Contains (told array limits cred t call) index → ⊥) →
        entry_at (array_after array limits cred t call) index ≡ entry_at array index }
{}

/// Each index that is told lies in the array.
pub fn told_within()
    ensures { (limits : Limits) (array : List Entry) (cred : Cred) (t : Time) (call : Call)
        (index : ℕ) →
        Valid limits array → Contains (told array limits cred t call) index → index < length array }
{}

/// No index is told twice.
pub fn told_once()
    ensures { (limits : Limits) (array : List Entry) (cred : Cred) (t : Time) (call : Call) →
        AllPairs (λ i j. i ≢ j) (told array limits cred t call) }
{}

/// No generation falls, and one rises with each object that takes a null entry.
pub fn goes_on()
    ensures { (limits : Limits) (array : List Entry) (cred : Cred) (t : Time) (call : Call)
        (index : ℕ) →
        GoesOn (entry_at array index) (entry_at (array_after array limits cred t call) index) }
{}

/// A handle that went stale is stale for good, whatever is asked for later.
pub fn stays_stale()
    ensures { (limits : Limits) (array : List Entry) (first later : List Request) (handle : List ℕ) →
        is_stale array handle ≡ false → is_stale (after_all limits first array) handle ≡ true →
        is_stale (after_all limits later (after_all limits first array)) handle ≡ true }
{}

/// The attributes in an answer are those of an object: no default ever shows.
pub fn shows_objects_alone()
    ensures { (limits : Limits) (array : List Entry) (cred : Cred) (t : Time) (call : Call) →
        Valid limits array → shows_objects (result_of array limits cred t call) ≡ true }
{}

/// An array keeps its length.
pub fn as_long()
    ensures { (limits : Limits) (array : List Entry) (cred : Cred) (t : Time) (call : Call) →
        length (array_after array limits cred t call) ≡ length array }
{}

/// The array with which a service begins is valid.
pub fn empty_is_valid()
    ensures { (limits : Limits) → 1 ≤ limits.n → Valid limits (empty_array limits.n) }
{}
