//! The tables that searches write in.

ghost use Rattle.std.specs.Prelude.{◌≡◌, ◌<◌, ◌≤◌, IfOk, IsTrue, length, true};
ghost use Rattle.residual_graph.specs.Graph.{HasEntries};
ghost use Rattle.residual_graph.specs.Limits.{row_limit};
ghost use Rattle.residual_graph.specs.Residual.{IsPseudoflow, IsReducedCostOptimal};
ghost use Rattle.residual_graph.specs.declared.side.Side.TheVariants.{Ahead};
ghost use Rattle.shortest_paths.specs.Search.{IsSearch};
ghost use Rattle.shortest_paths.specs.Tree.{AreArcsNoted, IsForgotten, IsMarkedToo, StaysHeld};
ghost use Rattle.augmentation.specs.Certificate.{AreInRange};
ghost use Rattle.cuts.specs.Cut.{IsParted, AreOnSide};
ghost use Rattle.augmentation.specs.Settle.{AreShortest};

use crate::attempt::Attempt;
use crate::certificate::are_in_range;
use crate::trails::Trails;
use containers::{Queue, both};
use cuts::{Excess, OnSide, mark_side};
use proposals::Wanted;
use residual_graph::{Graph, Side};
use shortest_paths::Tree;
use std::alloc::{AllocError, Global};
use std::marker::Model;
use tracked::Touched;

/// Tables with one entry a node. Between two calls nothing is known of them but their size.
#[derive(Drop)]
pub struct Scratch {
    /// The nodes to which a search of the finish may come next. These tables are opened when it searches first: until then
    /// their room is not touched.
    pub(crate) queue: Queue,
    /// What walks back along the paths of a search remember.
    pub(crate) trails: Trails,
    /// The labels that were tested last, and what changed since; in the finish the potentials with which it searches, and
    /// how its last search came to each node.
    pub(crate) tree: Tree,
    /// The nodes of a side, while a cut is looked for, and the arcs over which nodes were marked last.
    pub(crate) marked: Touched,
    pub(crate) hops: Vec<u32>,
    pub(crate) attempt: Attempt,
}

impl Model for Scratch {
    ghost use Rattle.augmentation.specs.ScratchView.{ScratchView};

    ghost Value = { ScratchView };

    ghost use Rattle.augmentation.specs.Scratch.{IsScratch};

    ghost view = { λ s. record {
      marks = s.marked;
      tree = s.tree;
    } };

    ghost invariant = { IsScratch };
}

impl Scratch {
    /// Tables for so many entries and arcs.
    ///
    /// # Errors
    /// Memory for a table was refused.
    pub fn new(alloc: Global, entries: u32, arcs: usize) -> Result<Scratch, AllocError>
        requires { entries ≤ row_limit }
        ensures sized { IfOk result (λ s. length s.tree.labels ≡ entries) }
        ensures lost { IfOk result (λ s. s.tree.is_lost ≡ true) }
        ensures apart { IfOk result (λ s. s.tree.are_apart ≡ true) }
    {
        let queue = Queue::new(alloc, entries);
        let trails = Trails::new(alloc, entries as usize);
        let tree = Tree::new(alloc, entries as usize, arcs);
        let marked = Touched::new(alloc, entries as usize);
        let hops = Vec::with_capacity(alloc, entries as usize);
        let attempt = Attempt::new(alloc, entries as usize, arcs);
        let ((queue, trails), ((marked, hops), (tree, attempt))) = both(
            both(queue, trails),
            both(both(marked, hops), both(tree, attempt)),
        )?;
        Ok(Scratch {
            queue,
            trails,
            tree,
            marked,
            hops,
            attempt,
        })
    }

    /// The label of each node.
    #[inline(always)]
    pub fn labels(&self) -> &[i64]
        ensures { result.now ≡ self.now.tree.labels }
    {
        self.tree.labels()
    }

    /// Notes that the arcs in these rows may have got another row or another flow: the next proposal looks at them, and so
    /// does the next search for the greatest potentials.
    pub fn note_all(&mut self, graph: &Graph, places: &[u32])
        ensures same { self.new ≡ record self.old { tree = self.new.tree } }
        ensures held { StaysHeld self.old.tree self.new.tree }
        ensures noted { AreArcsNoted graph.now.rows places.now self.new.tree }
    {
        self.attempt.proposals.note_all(places);
        self.tree.note_all(graph, places);
    }

    /// Notes that the potential of a node may be another than the label.
    pub fn note_potential(&mut self, v: usize)
        requires node { v < length self.old.tree.labels }
        ensures same { self.new ≡ record self.old {
          tree = record self.old.tree { touched = self.new.tree.touched };
        } }
        ensures marked { IsMarkedToo v self.old.tree.touched self.new.tree.touched }
    {
        self.tree.note_label(v);
    }

    /// Notes that any potential may be.
    pub fn note_potentials(&mut self)
        ensures { self.new ≡ record self.old { tree = record self.old.tree { are_apart = true } } }
    {
        self.tree.note_labels();
    }

    /// Forgets the labels that are held, as is to be where pushes begin with a flow of another table.
    pub fn forget(&mut self)
        ensures { self.new
            ≡ record self.old { tree = record self.old.tree { is_lost = true; are_apart = true } } }
    {
        self.tree.forget();
    }

    /// Has this proposal at hand, with potentials that are likely to certify it.
    pub fn offer(&mut self, wanted: Wanted, excess: &Excess, potentials: &[i64])
        requires excess { length excess.now ≡ length self.old.tree.labels }
        requires potentials { length potentials.now ≡ length self.old.tree.labels }
        ensures { self.new ≡ self.old }
    {
        self.attempt.wanted = wanted;
        self.attempt
            .proposals
            .take_over_nodes(excess.entries(), potentials, &[]);
    }

    /// Proposes where to lead a flow, its excess and potentials: the first time from afar, else near the nodes out of
    /// balance.
    pub fn propose(&mut self, graph: &Graph, flow: &[i64], excess: &Excess, potentials: &[i64])
        requires graph { HasEntries (length potentials.now) graph.now }
        requires flow { IsPseudoflow (length potentials.now) graph.now.rows flow.now }
        requires excess { length excess.now ≡ length potentials.now }
        requires potentials { length potentials.now ≡ length self.old.tree.labels }
        ensures { self.new ≡ self.old }
    {
        self.attempt.propose(graph, flow, excess, potentials);
    }

    /// Marks the nodes in excess and all that they reach, and says whether none of these is in deficit.
    pub fn is_parted(&mut self, graph: &Graph, flow: &[i64], excess: &Excess) -> bool
        requires graph { HasEntries (length self.old.tree.labels) graph.now }
        requires flow { IsPseudoflow (length self.old.tree.labels) graph.now.rows flow.now }
        requires excess { length excess.now ≡ length self.old.tree.labels }
        ensures same { self.new ≡ record self.old { marks = self.new.marks } }
        ensures marked { AreOnSide Ahead graph.now.rows flow.now excess.now self.new.marks }
        ensures parted { IsTrue result → IsParted graph.now.rows flow.now excess.now }
    {
        self.mark_side(Side::Ahead, graph, flow, excess);
        !excess.has_deficit_among(&self.marked)
    }

    /// Marks the nodes of a side.
    pub(crate) fn mark_side(&mut self, side: Side, graph: &Graph, flow: &[i64], excess: &Excess)
        requires graph { HasEntries (length self.old.tree.labels) graph.now }
        requires flow { IsPseudoflow (length self.old.tree.labels) graph.now.rows flow.now }
        requires excess { length excess.now ≡ length self.old.tree.labels }
        ensures same { self.new ≡ record self.old { marks = self.new.marks } }
        ensures marked { AreOnSide side graph.now.rows flow.now excess.now self.new.marks }
    {
        if self.attempt.proposals.lacks_arcs(graph.rows()) {
            self.attempt.keep_step(graph, flow);
        }
        let on = OnSide {
            side,
            graph,
            flow,
            ends: self.attempt.proposals.ends(),
        };
        mark_side(on, excess, &mut self.marked, &mut self.hops);
    }

    /// Searches breadth first from the nodes in excess over residual arcs that cost nothing, and says whether it came to a
    /// node in deficit.
    pub(crate) fn search_levels(&mut self, graph: &Graph, flow: &[i64], excess: &Excess) -> bool
        requires certified { IsReducedCostOptimal graph.now.rows flow.now self.old.tree.labels }
        requires excess_in { length excess.now ≡ length self.old.tree.labels }
        ensures same { self.new ≡ record self.old {
          tree = record self.old.tree { predecessors = self.new.tree.predecessors };
        } }
        ensures paths { IsSearch graph.now.rows flow.now
            self.new.tree.labels self.new.tree.predecessors }
    {
        self.queue.open(self.tree.labels().len());
        self.tree
            .search_levels(graph, flow, excess.entries(), &mut self.queue)
    }

    /// Makes labels that certify a flow the greatest potentials that do, by a search from all nodes: so seldom that no
    /// search waits for it.
    pub(crate) fn raise(&mut self, graph: &Graph, flow: &[i64])
        requires graph { HasEntries (length self.old.tree.labels) graph.now }
        requires certified { IsReducedCostOptimal graph.now.rows flow.now self.old.tree.labels }
        ensures sized { length self.new.tree.labels ≡ length self.old.tree.labels }
        ensures forgotten { IsForgotten self.new.tree }
        ensures shortest { AreShortest graph.now.rows flow.now self.new.tree.labels }
    {
        self.queue.open(self.tree.labels().len());
        self.tree.search_labels(graph, flow, &mut self.queue);
    }

    /// Makes them so where one of them left the range with which a search begins.
    pub(crate) fn bring_in_range(&mut self, graph: &Graph, flow: &[i64])
        requires graph { HasEntries (length self.old.tree.labels) graph.now }
        requires certified { IsReducedCostOptimal graph.now.rows flow.now self.old.tree.labels }
        ensures sized { length self.new.tree.labels ≡ length self.old.tree.labels }
        ensures certified { IsReducedCostOptimal graph.now.rows flow.now self.new.tree.labels }
        ensures in_range { AreInRange self.new.tree.labels }
    {
        if !are_in_range(self.tree.labels()) {
            self.raise(graph, flow);
        }
    }
}
