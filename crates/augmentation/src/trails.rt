//! Walks back over the hops of a forest, from a node in deficit to a node in excess; a hop that has no room is exchanged for
//! another one.
//!
//! Proved is that each call returns, that no index leaves its range, and that the forest stays one.

ghost use Rattle.std.specs.Prelude.{◌≡◌};
ghost use Rattle.shortest_paths.specs.Tree.{IsForestOf};
ghost use Rattle.augmentation.specs.Trails.{IsGround};

use residual_graph::Graph;
use shortest_paths::Tree;
use std::alloc::{AllocError, Global};

/// The most steps of a walk: no bound in practice.
const MOST_STEPS: u64 = u64::MAX;

/// What walks remember of a node.
#[derive(Clone, Copy)]
struct Trail {
    /// The end of an arc at the node that is tried next, where the hop to the node has no room.
    next: Option<u32>,
    /// The node from which the last walk came.
    behind: usize,
    /// Whether no way to the node is left.
    is_closed: bool,
}

/// A node to which no walk came, and whose hop stays.
const UNTRODDEN: Trail = Trail {
    next: None,
    behind: 0,
    is_closed: false,
};

/// The most rounds in which levels are not searched, after they led nowhere.
const MOST_PASSED: u32 = 64;

/// What walks remember of all nodes, and whether levels were worth their search.
#[derive(Drop)]
pub(crate) struct Trails {
    trails: Vec<Trail>,
    /// In how many rounds levels are passed over, and how many of these are left.
    pause: u32,
    left: u32,
}

impl Trails {
    /// Room for so many nodes, which is touched only when walks begin.
    ///
    /// # Errors
    /// Memory for the table was refused.
    pub fn new(alloc: Global, entries: usize) -> Result<Trails, AllocError> {
        let trails = Vec::with_capacity(alloc, entries)?;
        Ok(Trails {
            trails,
            pause: 0,
            left: 0,
        })
    }

    /// Whether levels are to be searched in this round: seldom, where they led nowhere.
    pub fn are_levels_due(&mut self) -> bool {
        if self.left == 0 {
            return true;
        }
        self.left -= 1;
        false
    }

    /// Notes how many pushes the levels led to.
    pub fn note_levels(&mut self, pushes: u64) {
        self.pause = if pushes > 0 {
            0
        } else {
            self.pause.saturating_mul(2).max(1).min(MOST_PASSED)
        };
        self.left = self.pause;
    }

    /// Forgets all: each hop stays.
    pub fn clear(&mut self) {
        self.trails.clear();
        let _filled = self.trails.resize(self.trails.capacity(), UNTRODDEN);
    }

    /// Forgets all: a hop without room is exchanged for any other one.
    pub fn begin(&mut self, graph: &Graph) {
        let mut node: u32 = 0;
        for v in 0..self.trails.len() {
            self.trails[v] = Trail {
                next: graph.first_end(node),
                ..UNTRODDEN
            };
            node = node.saturating_add(1);
        }
    }

    /// Whether no way to a node is left.
    fn is_closed(&self, v: usize) -> bool {
        v >= self.trails.len() || self.trails[v].is_closed
    }

    /// Notes that no way to a node is left.
    fn close(&mut self, v: usize) {
        if v < self.trails.len() {
            self.trails[v].is_closed = true;
        }
    }

    /// Notes that a walk came to a node from this one.
    fn come(&mut self, v: usize, behind: usize) {
        if v < self.trails.len() {
            self.trails[v].behind = behind;
        }
    }

    /// The node from which the last walk came to a node.
    fn behind(&self, v: usize) -> usize {
        if v < self.trails.len() {
            self.trails[v].behind
        } else {
            v
        }
    }

    /// The end of an arc that is tried next at a node; the one after it is the next.
    fn take_next(&mut self, graph: &Graph, v: usize) -> Option<u32> {
        if v >= self.trails.len() {
            return None;
        }
        let end = self.trails[v].next?;
        self.trails[v].next = if (end as usize) < 2 * graph.rows().len() {
            graph.next_end(end)
        } else {
            None
        };
        Some(end)
    }
}

/// What a walk looks at.
#[derive(Clone, Copy)]
pub(crate) struct Ground<'a> {
    pub graph: &'a Graph,
    pub flow: &'a [i64],
    pub excess: &'a [i64],
}

/// What comes of a step of a walk.
#[derive(Clone, Copy)]
enum Advance {
    /// The node lies in excess.
    Arrived,
    /// The walk goes on at this node.
    To(usize),
    /// No way to the node is left.
    Closed,
}

/// Walks back from a node to one in excess, by hops with room. Says whether it came there.
pub(crate) fn find_way(on: Ground<'_>, tree: &mut Tree, trails: &mut Trails, target: usize) -> bool
    requires ground { IsGround on tree.old.labels }
    requires forest { IsForestOf on.graph.now.rows tree.old }
    ensures same { tree.new ≡ record tree.old { predecessors = tree.new.predecessors } }
    ensures forest { IsForestOf on.entry.graph.now.rows tree.new }
{
    let mut node = target;
    for _ in 0..MOST_STEPS {
        match step_back(on, tree, trails, node) {
            Advance::Arrived => return true,
            Advance::To(next) => node = next,
            Advance::Closed => {
                if node == target {
                    return false;
                }
                node = trails.behind(node);
            }
        }
    }
    false
}

/// A step of a walk back from a node.
fn step_back(on: Ground<'_>, tree: &mut Tree, trails: &mut Trails, node: usize) -> Advance
    requires ground { IsGround on tree.old.labels }
    requires forest { IsForestOf on.graph.now.rows tree.old }
    ensures same { tree.new ≡ record tree.old { predecessors = tree.new.predecessors } }
    ensures forest { IsForestOf on.entry.graph.now.rows tree.new }
{
    if node >= tree.labels().len() || trails.is_closed(node) {
        return Advance::Closed;
    }
    let predecessor = tree.predecessors()[node];
    if predecessor.rank == 0 {
        if on.excess[node] > 0 {
            return Advance::Arrived;
        }
        trails.close(node);
        return Advance::Closed;
    }
    let hop = predecessor.arc();
    if (hop.arc as usize) < on.graph.rows().len() && on.graph.has_room(on.flow, hop) {
        let start = on.graph.start(hop.arc as usize, hop.way);
        if !trails.is_closed(start) {
            trails.come(start, node);
            return Advance::To(start);
        }
    }
    let Some(end) = trails.take_next(on.graph, node) else {
        trails.close(node);
        return Advance::Closed;
    };
    // The other end of an arc has the number beside it.
    tree.hang_on(on.graph, node, end ^ 1);
    Advance::To(node)
}
