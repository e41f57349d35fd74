//! Laws of the service that a cluster runs.

ghost use Rattle.std.specs.Prelude.{◌≡◌, ◌∷◌, [], List, All, ℕ};
ghost use Rattle.nfs2_types.specs.declared.Limits.{Limits};
ghost use Rattle.log_format.specs.declared.Event.{Event};
ghost use Rattle.log_format.specs.declared.Line.TheVariants as lines;
ghost use Rattle.server_trait.specs.declared.FaultPoint.{FaultPoint};
ghost use Rattle.cluster_model.specs.Moments.{Moment, Faults};
ghost use Rattle.cluster_model.specs.Right.{IsLawful};
ghost use Rattle.cluster_model.specs.Good.{FitsEvent};
ghost use Rattle.cluster_model.specs.Calm.{IsHarmless};
ghost use Rattle.cluster_model.specs.Fair.{IsFair, IsApartNow};
ghost use Rattle.cluster_model.specs.Right.{IsRight};
ghost use Rattle.cluster_model.specs.Steady.{IsSteady};
ghost use Rattle.cluster_model.specs.Step.{step};
ghost use Rattle.cluster_model.specs.Loose.{LooseStep};
ghost use Rattle.cluster_model.specs.Walk.{WalkedStep};
ghost use Rattle.cluster_model.specs.Turns.{last};
ghost use Rattle.cluster_model.specs.Run.{LooseRun, SameUptoApart, UptoApart, SameUpto, Upto, Always, IsAsPromised, run, end_of};
ghost use Rattle.cluster_model.specs.Run.{nothing};
ghost use Rattle.cluster_model.specs.Served.{IsServed};
ghost use Rattle.service_laws.specs.Served.{IsSized, service};
ghost use Rattle.service_laws.specs.SmallRuns.{four, asked, one_failure, lying, two_rogues};

/// The service keeps all the laws that the model asks for.
pub fn service_is_lawful()
    ensures { (limits : Limits) → IsSized limits → IsLawful (service limits) }
{}

/// A loose run of the service is Step's, and as promised, up to the last moment at which Fair and Apart hold for it and
/// all earlier moments. Where no record harms it is right at every moment.
pub fn service_runs()
    ensures exact { (limits : Limits) → IsSized limits →
        (servers : ℕ) (downs : List FaultPoint) (events : List Event) →
        All (FitsEvent (service limits)) events → (ms : List Moment) →
        LooseRun (service limits) servers downs events ms →
        SameUptoApart (service limits) nothing ms (run (service limits) servers downs events) }
    ensures promised { (limits : Limits) → IsSized limits →
        (servers : ℕ) (downs : List FaultPoint) (events : List Event) →
        All (FitsEvent (service limits)) events → (ms : List Moment) →
        LooseRun (service limits) servers downs events ms →
        UptoApart (service limits) nothing (IsAsPromised (service limits)) ms }
    ensures calm { (limits : Limits) →
        (servers : ℕ) (downs : List FaultPoint) (events : List Event) → All IsHarmless events → (ms : List Moment) →
        LooseRun (service limits) servers downs events ms →
        Always (IsServed (service limits)) ms }
{}

/// One step, from any moment. Where the state before it is right, at most f replicas are unsound there and no two texts
/// kept there share a digest, its moments are Step's as long as at most f replicas are unsound, and each of these is
/// right. A step whose Fetch walks down the digests is a loose one, and keeps what every state of a run keeps.
pub fn service_steps()
    ensures right { (limits : Limits) → IsSized limits → (faults : Faults) (event : Event) →
        FitsEvent (service limits) event → (m : Moment) (ms : List Moment) →
        LooseStep (service limits) faults event m ms →
        IsRight (service limits) m.state → IsFair (service limits) m → IsApartNow (service limits) m.state →
        SameUpto (IsFair (service limits)) ms (step (service limits) faults event m)
        × Upto (IsFair (service limits)) (λ n. IsRight (service limits) n.state) ms }
    ensures walked { (limits : Limits) → IsSized limits → (faults : Faults) (event : Event) →
        FitsEvent (service limits) event → (m : Moment) (ms : List Moment) → IsSteady (service limits) m.state →
        WalkedStep (service limits) faults event m ms →
        LooseStep (service limits) faults event m ms × IsSteady (service limits) (last m ms).state }
{}

/// Fair is met at each moment of a run in which the server of one of four replicas fails, and of one in which one of
/// four lies and is outvoted. It is not met where two of four are harmed.
pub fn fairness()
    ensures one_fails { Always (IsFair (service four)) (run (service four) 4 one_failure asked) }
    ensures one_lies { Always (IsFair (service four)) (run (service four) 4 [] lying) }
    ensures outvoted { (end_of (service four) 4 [] lying).lines
        ≡ lines.Silent 1 ∷ lines.At 0 1 ∷ lines.At 1 1 ∷ lines.At 2 1 ∷ lines.At 3 1 ∷ [] }
    ensures two_harmed { IsFair (service four) (end_of (service four) 4 [] two_rogues) → ⊥ }
{}
