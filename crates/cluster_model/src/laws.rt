//! Laws of every run, for each service that meets what is asked of it.

ghost use Rattle.std.specs.Prelude.{ℕ, List, All};
ghost use Rattle.log_format.specs.declared.Event.{Event};
ghost use Rattle.server_trait.specs.declared.FaultPoint.{FaultPoint};
ghost use Rattle.cluster_model.specs.Tested.{Tested, tested};
ghost use Rattle.cluster_model.specs.Moments.{Moment};
ghost use Rattle.cluster_model.specs.Right.{IsLawful, IsOrderly};
ghost use Rattle.cluster_model.specs.Good.{FitsEvent};
ghost use Rattle.cluster_model.specs.Calm.{IsHarmless};
ghost use Rattle.cluster_model.specs.Run.{LooseRun, SameUptoApart, UptoApart, Always, IsAsPromised, run, nothing};
ghost use Rattle.cluster_model.specs.Served.{IsServed};

/// Up to the last moment to which at most f replicas were unsound and no two texts shared a digest, a run in which
/// fetches may stop early has the moments of the exact run, and its state and its lines are right.
pub fn whole_runs()
    ensures exact { (T : Tested) → let S = tested T in IsLawful S →
        (servers : ℕ) (downs : List FaultPoint) (events : List Event) → All (FitsEvent S) events →
        (ms : List Moment) → LooseRun S servers downs events ms →
        SameUptoApart S nothing ms (run S servers downs events) }
    ensures right { (T : Tested) → let S = tested T in IsLawful S →
        (servers : ℕ) (downs : List FaultPoint) (events : List Event) → All (FitsEvent S) events →
        (ms : List Moment) → LooseRun S servers downs events ms → UptoApart S nothing (IsAsPromised S) ms }
{}

/// Where no record harms, each moment of a run is right, whatever servers fail; no place waits for a decision that f +
/// 1 live replicas have run, and no checkpoint waits to be stable that 2f + 1 live replicas have taken.
pub fn calm_runs()
    ensures { (T : Tested) → let S = tested T in IsOrderly S →
        (servers : ℕ) (downs : List FaultPoint) (events : List Event) → All IsHarmless events →
        (ms : List Moment) → LooseRun S servers downs events ms →
        Always (IsServed S) ms }
{}
