//! The greatest potentials that certify a flow: the shortest labels of all nodes.

ghost use Rattle.std.specs.Prelude.{◌≡◌, ◌<◌, ◌+ℤ◌, FitsSigned, List, ℤ, length};
ghost use Rattle.std.specs.Int.{w64};
ghost use Rattle.residual_graph.specs.Limits.{potential_floor};
ghost use Rattle.residual_graph.specs.Residual.{AreGreatest, ArePotentials, IsPseudoflow, IsReducedCostOptimal, number_at};
ghost use Rattle.predecessors.specs.Limits.{label_floor};
ghost use Rattle.shortest_paths.specs.Search.{AreOffered, IsSettledBy, MayCome, raised};
ghost use Rattle.shortest_paths.specs.Tree.{IsForgotten};

use crate::progress::Progress;
use crate::search::{come_along, offer_from, raise};
use crate::tree::Tree;
use containers::{Queue, Waiting};
use predecessors::Predecessor;
use residual_graph::Graph;

/// Has each node wait for as much as its potential lies below 0.
fn offer_all(potentials: &[i64], queue: &mut Queue)
    requires sized { length queue.old.entries ≡ length potentials.now }
    requires potentials { ArePotentials (length potentials.now) potential_floor potentials.now }
    ensures { AreOffered potentials.now queue.new }
{
    queue.clear();
    for v in 0..potentials.len() {
        let waiting = Waiting {
            key: -potentials[v],
            end: 0,
        };
        queue.offer(v, waiting);
    }
}

/// Raises the potential of a node by the key with which it waited: to 0, or until the residual arc by which it waited costs
/// nothing.
fn settle(
    graph: &Graph,
    potentials: &mut [i64],
    predecessors: &mut [Predecessor],
    node: usize,
    waiting: Waiting,
)
    requires flow { (x : List ℤ) × IsPseudoflow (length predecessors.old) graph.now.rows x }
    requires sized { length predecessors.old ≡ length potentials.old }
    requires node { node < length potentials.old }
    requires fits { FitsSigned w64 (number_at potentials.old node +ℤ waiting.key) }
    requires along { MayCome graph.now.rows potentials.old predecessors.old node waiting }
    ensures raised { potentials.new ≡ raised potentials.old node waiting.key }
    ensures settled { IsSettledBy graph.now.rows potentials.new predecessors.old predecessors.new node
        waiting.end }
{
    raise(potentials, node, waiting);
    if potentials[node] < 0 {
        come_along(graph, predecessors, node, waiting.end);
        return;
    }
    predecessors[node] = Predecessor::root();
}

impl Tree {
    /// Raises labels that certify a flow until they are the greatest potentials that do: those of open nodes rise together
    /// until one is 0, or a residual arc from a node that is not open costs nothing.
    #[inline(never)] // a name of its own in the program: `bench/count` counts its calls
    pub fn search_labels(&mut self, graph: &Graph, flow: &[i64], queue: &mut Queue)
        requires certified { IsReducedCostOptimal graph.now.rows flow.now self.old.labels }
        requires queue_sized { length queue.old.entries ≡ length self.old.labels }
        ensures sized { length self.new.labels ≡ length self.old.labels }
        ensures forgotten { IsForgotten self.new }
        ensures certified { IsReducedCostOptimal graph.now.rows flow.now self.new.labels }
        ensures within { ArePotentials (length self.new.labels) label_floor self.new.labels }
        ensures greatest { AreGreatest graph.now.rows flow.now self.new.labels }
        ensures queue_sized { length queue.new.entries ≡ length queue.old.entries }
    {
        self.forget();
        let potentials: &mut [i64] = &mut self.labels;
        let predecessors: &mut [Predecessor] = &mut self.predecessors;
        predecessors.fill(Predecessor::open());
        offer_all(potentials, queue);
        while let Some(node) = queue.take_first() {
            let waiting = queue.entry(node);
            settle(graph, potentials, predecessors, node, waiting);
            let reached = Progress {
                graph,
                flow,
                potentials,
                predecessors,
            };
            offer_from(reached, queue, node);
        }
    }
}
