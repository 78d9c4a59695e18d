//! How far a search has come: the nodes that wait, nearest first, and those that are settled.

ghost use Rattle.std.specs.Prelude.{◌≡◌, ◌<◌, ◌^◌, ℕ, IfOk, IfSome, IsTrue, length};

use crate::heap::Heap;
use crate::nodes::Nodes;
use crate::pairs::both;
use std::alloc::{AllocError, Global};
use std::marker::Model;

/// The length of no path.
pub const FAR: i64 = 4_000_000_000_000_000_000;

/// Where more than one node in so many has a path, those of all nodes are forgotten in one go.
const MOST_KNOWN: usize = 32;

/// How far a search, and a walk after it, has come with a node.
#[derive(Clone, Copy, PartialEq, Eq)]
pub enum State {
    /// No path to it was found.
    New,
    /// It waits with the best path so far.
    Open,
    /// No path to it is shorter.
    Settled,
    /// It is on a walk.
    Walked,
    /// It is on what is kept of a walk.
    Kept,
    /// No walk gets on from it.
    Dead,
}

/// The nodes to which a search found a path, a textbook's labelled nodes: they wait in a heap until they are settled. It is seen
/// as the number of entries that a table of nodes has.
#[derive(Drop)]
pub struct Frontier {
    /// A byte a node, so that a search reads what else it knows of one only where it has to.
    states: Vec<State>,
    /// The nodes that wait. Some of them may be settled by now, as a shorter path to them was found.
    heap: Heap,
    /// The nodes that are settled, in order.
    settled: Nodes,
}

impl Model for Frontier {
    ghost use Rattle.std.specs.Prelude.{ℕ, ◌≡◌, ◌<◌, ◌^◌, length};

    ghost Value = { ℕ };

    ghost view = { λ f. length f.states.items };

    ghost invariant = { λ f. (length f.states.items < 2 ^ 31)
        × (f.heap ≡ length f.states.items)
        × (f.settled ≡ length f.states.items) };
}

impl Frontier {
    /// Room for so many entries of nodes: it is opened before it is used, and its room is not touched.
    ///
    /// # Errors
    /// Memory for a table was refused.
    pub fn new(alloc: Global, entries: usize) -> Result<Frontier, AllocError>
        ensures { IfOk result (λ f. f ≡ 0) }
    {
        let states = Vec::with_capacity(alloc, entries);
        let lists = both(Heap::new(alloc, entries), Nodes::reserve(alloc, entries));
        let (states, (heap, settled)) = both(states, lists)?;
        Ok(Frontier {
            states,
            heap,
            settled,
        })
    }

    /// Tables of so many entries of nodes, which are open.
    ///
    /// # Errors
    /// Memory for a table was refused.
    pub fn opened(alloc: Global, entries: usize) -> Result<Frontier, AllocError>
        requires { entries < 2 ^ 31 }
        ensures { IfOk result (λ f. f ≡ entries) }
    {
        let mut frontier = Frontier::new(alloc, entries)?;
        if !frontier.open(entries) {
            return Err(AllocError);
        }
        Ok(frontier)
    }

    /// Makes tables of so many entries of nodes in the room that there is, and says whether it is enough: then no search
    /// is begun.
    pub fn open(&mut self, entries: usize) -> bool
        requires { entries < 2 ^ 31 }
        ensures { IsTrue result → self.new ≡ entries }
    {
        if entries > self.states.capacity() {
            return false;
        }
        if !self.heap.open(entries) {
            self.states.clear();
            self.heap.close();
            self.settled.begin(0);
            return false;
        }
        self.states.clear();
        let _filled = self.states.resize(entries, State::New);
        self.settled.begin(entries);
        true
    }

    /// Makes the tables empty.
    pub fn close(&mut self)
        ensures { self.new ≡ 0 }
    {
        self.states.clear();
        self.heap.close();
        self.settled.begin(0);
    }

    /// The number of entries of a table of nodes.
    #[inline(always)]
    pub fn entries(&self) -> usize
        ensures { result ≡ self.now }
    {
        self.states.len()
    }

    /// Forgets all paths.
    pub fn forget(&mut self)
        ensures { self.new ≡ self.old }
    {
        let waiting = self.heap.entries().len();
        let known = waiting.saturating_add(self.settled.listed().len());
        if known > self.states.len() / MOST_KNOWN {
            self.states.fill(State::New);
        } else {
            set_states(&mut self.states, &self.settled, State::New);
            forget_waiting(&mut self.states, &self.heap);
        }
        self.heap.clear();
        self.settled.clear();
    }

    /// Takes back what walks wrote down of the settled nodes.
    pub fn forget_walks(&mut self)
        ensures { self.new ≡ self.old }
    {
        set_states(&mut self.states, &self.settled, State::Settled);
    }

    /// How far the search has come with a node.
    #[inline(always)]
    pub fn state(&self, v: usize) -> State
        requires { v < self.now }
    {
        self.states[v]
    }

    /// Writes down how far a walk has come with a node.
    #[inline(always)]
    pub fn set_state(&mut self, v: usize, state: State)
        requires { v < self.old }
        ensures { self.new ≡ self.old }
    {
        self.states[v] = state;
    }

    /// The nodes that are settled, in order.
    #[inline(always)]
    pub fn settled(&self) -> &Nodes
        ensures { result.now ≡ self.now }
    {
        &self.settled
    }

    /// Takes the first settled node that was not taken.
    #[inline(always)]
    pub fn take(&mut self) -> Option<usize>
        ensures kept { self.new ≡ self.old }
        ensures node { IfSome result (λ v. v < self.old) }
    {
        self.settled.take()
    }

    /// Takes the last settled node that was not taken off the list, so that it may wait again.
    #[inline(always)]
    pub fn take_off(&mut self) -> Option<usize>
        ensures kept { self.new ≡ self.old }
        ensures node { IfSome result (λ v. v < self.old) }
    {
        let v = self.settled.take_off()?;
        if self.states[v] == State::Settled {
            self.states[v] = State::New;
        }
        Some(v)
    }

    /// Settles a node.
    #[inline(always)]
    pub fn settle(&mut self, v: usize)
        requires { v < self.old }
        ensures { self.new ≡ self.old }
    {
        self.states[v] = State::Settled;
        self.settled.add(v);
    }

    /// Lines a node up by a lower key than before, if it had one. Where that is the last one that was settled, no path can be
    /// shorter, so that the node is settled; says whether it is.
    #[inline(always)]
    pub fn line_up(&mut self, v: usize, key: i64, last: i64) -> bool
        requires { v < self.old }
        ensures { self.new ≡ self.old }
    {
        if key == last {
            self.settle(v);
            return true;
        }
        if self.states[v] == State::Open {
            self.heap.lower(v, key);
        } else {
            self.states[v] = State::Open;
            self.heap.add(v, key);
        }
        false
    }

    /// Settles the nearest node that waits, unless it is further than this, and gives it.
    pub fn settle_nearest(&mut self, most: i64) -> Option<usize>
        ensures kept { self.new ≡ self.old }
        ensures node { IfSome result (λ v. v < self.old) }
    {
        for _ in 0..=self.states.len() {
            if self.heap.least() > most {
                break;
            }
            let u = self.heap.take()?;
            if self.states[u] == State::Open {
                self.settle(u);
                return Some(u);
            }
        }
        None
    }
}

/// Writes down how far the search has come with these nodes.
fn set_states(states: &mut [State], nodes: &Nodes, state: State)
    requires { nodes.now ≡ length states.old }
    ensures { length states.new ≡ length states.old }
{
    for v in nodes.listed() {
        states[*v as usize] = state;
    }
}

/// Forgets the paths to the nodes in a heap.
fn forget_waiting(states: &mut [State], heap: &Heap)
    requires { heap.now ≡ length states.old }
    ensures { length states.new ≡ length states.old }
{
    for entry in heap.entries() {
        states[entry.node as usize] = State::New;
    }
}
