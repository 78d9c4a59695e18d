//! The tree of labels, kept from flow to flow: where edits and pushes broke it, it is mended.
//!
//! Proved is that each call returns, that no index, sum or cast leaves its range, and that each node is marked whose label or
//! predecessor is written. Nothing else is proved of labels that are looked for: who takes them tests them, and has them
//! accepted.

ghost use Rattle.std.specs.Prelude.{◌≡◌, ◌<◌, ◌≤◌, IfOk, IfSome, length, true};
ghost use Rattle.residual_graph.specs.Limits.{row_limit};
ghost use Rattle.shortest_paths.specs.Tree.{AreArcsNoted, IsForgotten, IsMarkedToo, IsNotedIn, IsRelabelled, IsTreeOf, StaysHeld};

mod joining;
mod near;
mod whole;

use crate::forest::Forest;
use crate::residual_network::Residual;
use crate::step::{Step, across};
use containers::{Frontier, State, both};
use predecessors::Predecessor;
use residual_graph::Graph;
use std::alloc::{AllocError, Global};
use std::marker::Model;
use tracked::Touched;

/// The label of a node that is loose: any other is lower, also where a cost is taken off this one.
const FAR: i64 = i64::MAX / 2;

/// At most so many times as many nodes are scanned as there are nodes, some of them again.
const MOST_SCANNED: usize = 4;

/// Where more than one arc in so many would have to be noted, all labels are tested.
const MOST_NOTED: usize = 16;

/// The most arcs for whose notes there is room.
const MOST_ROWS: usize = 200_001;

/// What is known of the labels.
#[derive(Clone, Copy)]
enum Knowledge {
    /// They were tested, and what changed since is noted.
    Held,
    /// They were tested, and what changed since is noted or written, as far as is known: they can be mended.
    Mendable,
    /// They are to be found anew.
    Nothing,
}

/// The labels of all nodes, and how each node got its own. A node whose predecessor no longer leads to it is loose.
#[derive(Drop)]
pub struct Tree {
    pub(crate) labels: Vec<i64>,
    pub(crate) predecessors: Vec<Predecessor>,
    /// The nodes whose label or predecessor was written since labels were tested.
    touched: Touched,
    /// The rows of arcs that may have changed since labels were tested, or whose flow may have.
    noted: Touched,
    /// The nodes at the ends of these arcs.
    beside: Touched,
    knowledge: Knowledge,
    /// Whether any potential may be another than the label; else only those of touched nodes may.
    are_apart: bool,
    /// What is taken off the potentials that are likely to certify, so that none is above 0.
    taken_off: i64,
    loose: Vec<u32>,
    /// The nodes that have a label and are to be scanned. A node's key is how far its label is above its potential.
    frontier: Frontier,
    /// The key of those of them that are settled: none that waits has a lower one.
    last: i64,
    /// How many of them wait.
    waiting: usize,
    forest: Forest,
}

impl Model for Tree {
    ghost use Rattle.shortest_paths.specs.Knowledge.{is_lost_by};
    ghost use Rattle.shortest_paths.specs.Tree.{TreeView};

    ghost Value = { TreeView };

    ghost view = { λ t. record {
      labels = t.labels.items;
      predecessors = t.predecessors.items;
      touched = t.touched;
      noted = t.noted;
      beside = t.beside;
      is_lost = is_lost_by t.knowledge;
      are_apart = t.are_apart;
    } };

    ghost use Rattle.shortest_paths.specs.TreeTables.{AreTables};

    ghost invariant = { AreTables };
}

impl Tree {
    /// A tree of so many nodes, of which no label is known yet, with room for notes of so many arcs.
    ///
    /// # Errors
    /// Memory for a table was refused.
    pub fn new(alloc: Global, entries: usize, arcs: usize) -> Result<Tree, AllocError>
        requires { entries ≤ row_limit }
        ensures sized { IfOk result (λ t. length t.labels ≡ entries) }
        ensures lost { IfOk result (λ t. t.is_lost ≡ true) }
        ensures apart { IfOk result (λ t. t.are_apart ≡ true) }
    {
        let labels = vec![in alloc; 0; entries];
        let predecessors = vec![in alloc; Predecessor::root(); entries];
        let touched = Touched::new(alloc, entries);
        let noted = Touched::new(alloc, arcs.min(MOST_ROWS));
        let beside = Touched::new(alloc, entries);
        let loose = Vec::with_capacity(alloc, entries);
        let frontier = Frontier::opened(alloc, entries);
        let forest = Forest::new(alloc, entries);
        let (((labels, predecessors), (touched, forest)), ((noted, beside), (loose, frontier))) =
            both(
                both(both(labels, predecessors), both(touched, forest)),
                both(both(noted, beside), both(loose, frontier)),
            )?;
        Ok(Tree {
            labels,
            predecessors,
            touched,
            noted,
            beside,
            knowledge: Knowledge::Nothing,
            are_apart: true,
            taken_off: 0,
            loose,
            frontier,
            last: 0,
            waiting: 0,
            forest,
        })
    }

    /// The label of each node.
    pub fn labels(&self) -> &[i64]
        ensures { result.now ≡ self.now.labels }
    {
        &self.labels
    }

    /// How each node got its label.
    pub fn predecessors(&self) -> &[Predecessor]
        ensures value { result.now ≡ self.now.predecessors }
        ensures as_many { length result.now ≡ length self.now.labels }
    {
        &self.predecessors
    }

    /// The nodes whose label or predecessor may be another than the one that was tested, or than the potential.
    pub fn touched(&self) -> &Touched
        ensures { result.now ≡ self.now.touched }
    {
        &self.touched
    }

    /// The arcs that are noted.
    pub fn noted(&self) -> &Touched
        ensures { result.now ≡ self.now.noted }
    {
        &self.noted
    }

    /// The nodes at the arcs that are noted.
    pub fn beside(&self) -> &Touched
        ensures { result.now ≡ self.now.beside }
    {
        &self.beside
    }

    /// Whether more changed than is noted, or no labels were tested.
    pub fn is_lost(&self) -> bool
        ensures { result ≡ self.now.is_lost }
    {
        match self.knowledge {
            Knowledge::Held => false,
            Knowledge::Mendable | Knowledge::Nothing => true,
        }
    }

    /// Whether any potential may be another than the label.
    pub fn are_apart(&self) -> bool
        ensures { result ≡ self.now.are_apart }
    {
        self.are_apart
    }

    /// Notes that the potential of a node may be another than the label, which is to be tested.
    pub fn note_label(&mut self, v: usize)
        requires node { v < length self.old.labels }
        ensures same { self.new ≡ record self.old { touched = self.new.touched } }
        ensures marked { IsMarkedToo v self.old.touched self.new.touched }
    {
        self.touched.note(v);
    }

    /// Notes that any potential may be.
    pub fn note_labels(&mut self)
        ensures { self.new ≡ record self.old { are_apart = true } }
    {
        self.are_apart = true;
    }

    /// Notes that an arc may have got another row or another flow, and the nodes at its ends. A place past the rows stands for
    /// no arc.
    pub fn note(&mut self, graph: &Graph, k: usize)
        ensures held { StaysHeld self.old self.new }
        ensures noted { k < length graph.now.rows → IsNotedIn graph.now.rows self.new k }
    {
        if k >= graph.rows().len() {
            return;
        }
        let row = graph.row(k);
        let tail = row.tail as usize;
        let head = row.head as usize;
        let nodes = self.beside.size();
        if k >= self.noted.size() || tail >= nodes || head >= nodes {
            self.forget();
            return;
        }
        self.noted.note(k);
        self.beside.note(tail);
        self.beside.note(head);
    }

    /// Notes all these arcs so. If nothing is held, and nothing was noted since, many are not noted: mostly the labels
    /// were found after these arcs changed.
    pub fn note_all(&mut self, graph: &Graph, places: &[u32])
        ensures held { StaysHeld self.old self.new }
        ensures noted { AreArcsNoted graph.now.rows places.now self.new }
    {
        if self.is_lost() && self.noted.places().is_empty() && are_many(graph, places) {
            return;
        }
        for place in places {
            self.note(graph, *place as usize);
        }
    }

    /// Has the tree take so much off all potentials that are likely to certify a flow, which it gets from now on.
    pub fn lower(&mut self, amount: i64)
        ensures { self.new ≡ self.old }
    {
        self.taken_off = amount;
    }

    /// Forgets what is held: the labels are to be found anew.
    pub fn forget(&mut self)
        ensures { self.new ≡ record self.old { is_lost = true; are_apart = true } }
    {
        self.knowledge = Knowledge::Nothing;
        self.are_apart = true;
    }

    /// Holds the labels, which were tested and are the potentials; the flow of these arcs may be brought back. Where many arcs
    /// were written nothing is held, since the next test would have to look at all of them: a test of all labels in turn is
    /// quicker.
    pub fn accept(&mut self, graph: &Graph, written: &[u32])
        ensures labels { self.new.labels ≡ self.old.labels }
        ensures predecessors { self.new.predecessors ≡ self.old.predecessors }
        ensures noted { AreArcsNoted graph.now.rows written.now self.new }
    {
        self.touched.clear();
        self.are_apart = false;
        self.noted.clear();
        self.beside.clear();
        if are_many(graph, written) {
            self.knowledge = Knowledge::Mendable;
            return;
        }
        self.knowledge = Knowledge::Held;
        self.note_all(graph, written);
    }

    /// Makes the labels these potentials, with which searches between pushes begin: nothing is held of them then.
    pub fn take_potentials(&mut self, potentials: &[i64])
        requires same_length { length potentials.now ≡ length self.old.labels }
        ensures labels { self.new.labels ≡ potentials.now }
        ensures forgotten { IsForgotten self.new }
    {
        self.forget();
        self.labels.copy_from_slice(potentials);
    }

    /// Finds all labels anew, from all nodes with label 0. Says whether all may be right.
    pub fn search(&mut self, residual: Residual<'_>) -> bool
        ensures sized { length self.new.labels ≡ length self.old.labels }
        ensures marked { IsRelabelled self.old self.new }
    {
        let nodes = residual.potentials.len();
        if self.labels.len() != nodes || residual.ends.entries() != nodes {
            return false;
        }
        self.begin();
        self.forest.clear();
        for v in 0..nodes {
            self.wait(residual, v as u32, 0, Predecessor::root());
        }
        self.scan_at_most(residual, nodes * MOST_SCANNED, true)
    }

    /// Mends the tree where arcs are noted or are among these, also where nothing is held. Says whether all labels may be right
    /// now.
    pub fn mend(&mut self, residual: Residual<'_>, written: &[u32]) -> bool
        ensures sized { length self.new.labels ≡ length self.old.labels }
        ensures marked { IsRelabelled self.old self.new }
    {
        let nodes = residual.potentials.len();
        if self.labels.len() != nodes || residual.ends.entries() != nodes {
            return false;
        }
        if let Knowledge::Nothing = self.knowledge {
            return false;
        }
        self.rejoin_changed(residual, written);
        let is_mended = self.mend_near(residual, written) || self.mend_whole(residual, written);
        self.rejoin_touched(residual);
        is_mended
    }

    /// How many arcs may have changed, some of them counted twice: those that are noted, and then these.
    fn changed(&self, written: &[u32]) -> usize {
        self.noted.places().len().saturating_add(written.len())
    }

    /// One of them, by its place among them.
    fn changed_at(&self, written: &[u32], i: usize) -> u32 {
        let noted = self.noted.places();
        if i < noted.len() {
            noted[i]
        } else {
            entry(written, i - noted.len())
        }
    }

    /// The potential of a node that is likely to certify the flow.
    #[inline(always)]
    fn potential(&self, residual: Residual<'_>, v: usize) -> i64
        requires node { v < length residual.potentials.now }
    {
        lowered(residual.potentials[v], self.taken_off)
    }

    /// Gives a node a label and a predecessor.
    #[inline(always)]
    fn put(&mut self, v: usize, label: i64, predecessor: Predecessor)
        requires node { v < length self.old.labels }
        ensures sized { length self.new.labels ≡ length self.old.labels }
        ensures marked { IsRelabelled self.old self.new }
    {
        self.labels[v] = label;
        self.predecessors[v] = predecessor;
        self.touched.note(v);
    }

    /// The predecessor of a node to which a residual arc leads from this one, where it leaves at this end.
    #[inline(always)]
    fn beyond(&self, u: u32, end: u32) -> Predecessor
        requires node { u < length self.now.labels }
    {
        Predecessor {
            end,
            rank: self.rank_beyond(u),
            is_open: false,
        }
    }

    /// The rank of a node that gets its label from this one.
    #[inline(always)]
    fn rank_beyond(&self, u: u32) -> u32
        requires node { u < length self.now.labels }
    {
        self.predecessors[u as usize].rank.saturating_add(1)
    }

    /// The label to which a residual arc leads.
    fn label_by(&self, step: Step) -> i64
        requires start { step.start < length self.now.labels }
    {
        raised(self.labels[step.start as usize], step.cost)
    }

    /// Has the loose nodes wait.
    fn hang_all(&mut self, residual: Residual<'_>)
        requires sized { IsTreeOf residual self.old }
        ensures sized { IsTreeOf residual.entry self.new }
        ensures marked { IsRelabelled self.old self.new }
    {
        for i in 0..self.loose.len() {
            let v = entry(&self.loose, i);
            if (v as usize) < residual.potentials.len() {
                self.hang(residual, v);
            }
        }
    }

    /// Has a loose node wait, with the least label that it can have by a residual arc from a node whose label is the last one.
    fn hang(&mut self, residual: Residual<'_>, v: u32)
        requires sized { IsTreeOf residual self.old }
        requires node { v < length residual.potentials.now }
        ensures sized { IsTreeOf residual.entry self.new }
        ensures marked { IsRelabelled self.old self.new }
    {
        // No label is below the node's potential, if the potentials certify the flow.
        let least = self.potential(residual, v as usize);
        let mut label = 0;
        let mut predecessor = Predecessor::root();
        let ends = residual.ends.at(v as usize);
        for i in 0..ends.links.len() {
            let link = ends.links[i];
            let by = lowered(self.labels[link.other as usize], link.cost);
            if by < label
                && link.room_back::<true>() > 0
                && self.frontier.state(link.other as usize) != State::Open
            {
                label = by;
                predecessor = self.beyond(link.other, across(ends.numbers[i]));
                if label <= least {
                    break;
                }
            }
        }
        self.wait(residual, v, label, predecessor);
    }

    /// Gives a node a label, lower than that with which it waits if it does, and has it wait.
    #[inline(always)]
    fn wait(&mut self, residual: Residual<'_>, v: u32, label: i64, predecessor: Predecessor)
        requires sized { IsTreeOf residual self.old }
        requires node { v < length residual.potentials.now }
        ensures sized { IsTreeOf residual.entry self.new }
        ensures marked { IsRelabelled self.old self.new }
    {
        self.put(v as usize, label, predecessor);
        let key = self.key(residual, v as usize);
        let waited = self.frontier.state(v as usize) == State::Open;
        if self.frontier.line_up(v as usize, key, self.last) {
            self.waiting = self.waiting.saturating_sub(usize::from(waited));
        } else if !waited {
            self.waiting = self.waiting.saturating_add(1);
        }
    }

    /// How far the label of a node is above its potential.
    #[inline(always)]
    fn key(&self, residual: Residual<'_>, v: usize) -> i64
        requires sized { IsTreeOf residual self.now }
        requires node { v < length residual.potentials.now }
    {
        lowered(self.labels[v], self.potential(residual, v))
    }

    /// Has no node wait. None is to come with a key below 0.
    fn begin(&mut self)
        ensures { self.new ≡ self.old }
    {
        self.frontier.forget();
        self.last = 0;
        self.waiting = 0;
    }

    /// Takes a node of the least key.
    #[inline(always)]
    fn take(&mut self, residual: Residual<'_>) -> Option<usize>
        requires sized { IsTreeOf residual self.old }
        ensures kept { self.new ≡ self.old }
        ensures node { IfSome result (λ v. v < length residual.entry.potentials.now) }
    {
        let ready = self.frontier.take_off();
        if ready.is_some() {
            return ready;
        }
        let u = self.frontier.settle_nearest(i64::MAX)?;
        self.last = self.key(residual, u);
        self.waiting = self.waiting.saturating_sub(1);
        self.frontier.take_off()
    }

    /// Scans nodes that wait, so many at most, and says whether all labels are the last ones. `others_are_last` says whether
    /// those of the nodes that do not wait are: then the settled ones improve none but others that wait.
    fn scan_at_most(&mut self, residual: Residual<'_>, most: usize, others_are_last: bool) -> bool
        requires sized { IsTreeOf residual self.old }
        ensures sized { IsTreeOf residual.entry self.new }
        ensures marked { IsRelabelled self.old self.new }
    {
        for _ in 0..most {
            if others_are_last && self.waiting == 0 {
                return true;
            }
            let Some(u) = self.take(residual) else {
                return true;
            };
            self.scan(residual, u as u32);
        }
        false
    }

    /// Scans a node: improves the labels to which the residual arcs from it lead.
    fn scan(&mut self, residual: Residual<'_>, u: u32)
        requires sized { IsTreeOf residual self.old }
        requires node { u < length residual.potentials.now }
        ensures sized { IsTreeOf residual.entry self.new }
        ensures marked { IsRelabelled self.old self.new }
    {
        let ends = residual.ends.at(u as usize);
        let label = self.labels[u as usize];
        for i in 0..ends.links.len() {
            let link = ends.links[i];
            let by = raised(label, link.cost);
            if by < self.labels[link.other as usize] && link.room::<true>() > 0 {
                let predecessor = self.beyond(u, ends.numbers[i]);
                self.wait(residual, link.other, by, predecessor);
            }
        }
    }
}

/// A label with a cost put on it. No sum of a right label wraps, since costs are far smaller.
#[inline(always)]
fn raised(label: i64, cost: i64) -> i64 {
    label.wrapping_add(cost)
}

/// A label with a cost taken off it, or how far it is above another one.
#[inline(always)]
fn lowered(label: i64, cost: i64) -> i64 {
    label.wrapping_sub(cost)
}

/// Whether these are so many arcs that they are not noted.
fn are_many(graph: &Graph, places: &[u32]) -> bool {
    places.len() > graph.rows().len() / MOST_NOTED
}

/// The entry at a place of a list, or a number that is no place of any table.
fn entry(list: &[u32], i: usize) -> u32 {
    if i < list.len() { list[i] } else { u32::MAX }
}
