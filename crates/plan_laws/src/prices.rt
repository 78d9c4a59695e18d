//! What other supplies cost at least, and that wider bounds cost nothing.

ghost use Rattle.std.specs.Prelude.{◌≡◌, ℕ, ℤ, ◌+ℤ◌, ◌-ℤ◌, ◌*ℤ◌, ◌≤ℤ◌, List};
ghost use Rattle.dimacs_text.specs.declared.problem.ArcRow.{ArcRow};
ghost use Rattle.network.specs.Flow.{MinCost, AllEndsAreNodes, IsNode, IsLegalFlow, IsCertifiedFlow, total_cost};
ghost use Rattle.network.specs.Instance.{Instance, IsLawful, IsLegal, IsBest, IsAsGood, Supplies, at_node, worth};
ghost use Rattle.flow_solver.specs.Answer.{IsAnswered};
ghost use Rattle.flow_solver.specs.Moment.{Moment};
ghost use Rattle.flow_solver.specs.declared.verdict.Verdict.TheVariants.{Best};
ghost use Rattle.plan_laws.specs.Prices.{AreNoTighter, price_of, resupplied, with_arcs, with_shipment, with_supplies};

/// A law, with nothing to run: potentials that certify a flow say what any legal flow costs at least under other supplies.
/// A unit more from u to v costs at least the potential of v less that of u.
pub fn potentials_are_prices()
    ensures supplies { (net : MinCost) (supply : ℕ → ℤ) (flow other : List ℤ) (potential : ℕ → ℤ)
        → AllEndsAreNodes net → IsLegalFlow net flow → IsCertifiedFlow net flow potential
        → IsLegalFlow (resupplied net supply) other
        → (total_cost net.arcs flow +ℤ price_of net.nodes potential net.supply supply)
        ≤ℤ total_cost net.arcs other }
    ensures shipment { (net : MinCost) (u v : ℕ) (units : ℤ) (flow other : List ℤ)
        (potential : ℕ → ℤ) → AllEndsAreNodes net → IsNode net u → IsNode net v
        → IsLegalFlow net flow → IsCertifiedFlow net flow potential
        → IsLegalFlow (resupplied net (with_shipment net.supply u v units)) other
        → (total_cost net.arcs flow +ℤ (potential v -ℤ potential u) *ℤ units)
        ≤ℤ total_cost net.arcs other }
    ensures answers { (m n : Moment) (old new : List ℤ) (worth other : ℤ) → IsAnswered m
        → IsAnswered n
        → m.instance.demand ≡ Supplies old → n.instance ≡ with_supplies m.instance new
        → m.verdict ≡ Best worth → n.verdict ≡ Best other
        → (worth +ℤ price_of m.instance.nodes (at_node m.potentials) (at_node old) (at_node new))
        ≤ℤ other }
{}

/// A law, with nothing to run: within wider bounds a best flow is at least as good.
pub fn wider_bounds_never_cost()
    ensures { (before : Instance) (arcs : List ArcRow) (flow other : List ℤ)
        → AreNoTighter before.arcs arcs
        → IsLawful (with_arcs before arcs) → IsLegal before flow
        → IsBest (with_arcs before arcs) other
        → IsAsGood before.demand (worth (with_arcs before arcs) other) (worth before flow) }
{}
