//! The minimum cut of a maximum flow.

ghost use Rattle.std.specs.Prelude.{◌≡◌, ℕ, ℤ, ◌<ℤ◌, List};
ghost use Rattle.network.specs.Flow.{IsGreatestPotential};
ghost use Rattle.network.specs.Instance.{Instance, IsLawful, IsLegal, IsCertified, at_node, numbered_flow, reduced, reduced_flow, worth};
ghost use Rattle.network.specs.declared.TheConstants.{RETURN_CAP};
ghost use Rattle.flow_solver.specs.Answer.{IsAnswered};
ghost use Rattle.flow_solver.specs.Moment.{Moment};
ghost use Rattle.flow_solver.specs.declared.verdict.Verdict.TheVariants.{Best};
ghost use Rattle.plan_laws.specs.MinimumCut.{ShowsMinimumCut};

/// A law, with nothing to run: where the worth of a maximum flow is below the capacity of the return arc, the nodes with a
/// greatest potential below 0 are a minimum cut; so they are of a moment that answers its instance.
pub fn potentials_show_a_minimum_cut()
    ensures flows { (of : Instance) (flow : List ℤ) (potential : ℕ → ℤ)
        → IsLawful of → IsLegal of flow → IsCertified of flow potential
        → IsGreatestPotential (reduced of) (reduced_flow of flow) potential
        → worth of flow <ℤ RETURN_CAP → ShowsMinimumCut of.demand of flow potential }
    ensures answers { (m : Moment) (worth : ℤ) → IsAnswered m → m.verdict ≡ Best worth
        → worth <ℤ RETURN_CAP
        → ShowsMinimumCut m.instance.demand m.instance (numbered_flow m.instance.demand m.flow)
        (at_node m.potentials) }
{}
