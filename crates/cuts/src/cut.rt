//! A mark for each node that shows why supply is left over or demand is not met.

ghost use Rattle.std.specs.Prelude.{◌≡◌, ℕ, All, IfOk, length, ◌<◌, ◌≤◌, false, replicate, slice_index_or, slice_set, true};
ghost use Rattle.residual_graph.specs.Limits.{row_limit};
ghost use Rattle.cuts.specs.Cut.{AreNodesIn, AreTaken};
ghost use Rattle.tracked.specs.Marks.{in_set};
ghost use Rattle.tracked.specs.Tracked.{IsBroughtBack, IsFresh, IsWritten};

use std::alloc::{AllocError, Global};
use std::marker::Model;
use std::mem::swap;
use tracked::{Touched, Tracked};

/// A mark for each node, set where it is in the cut, beside what a snapshot kept of the marks. It is seen as this table.
/// Each marked node is listed, and maybe others, so that another cut is marked without a look at all nodes.
#[derive(Drop)]
pub struct Cut {
    table: Tracked<bool>,
    listed: Touched,
}

impl Model for Cut {
    ghost use Rattle.std.specs.Prelude.{Bool};
    ghost use Rattle.cuts.specs.Cut.{AreMarkedListed};
    ghost use Rattle.tracked.specs.Tracked.{TrackedView};

    ghost Value = { TrackedView Bool };

    ghost view = { λ c. c.table };

    ghost invariant = { λ c. AreMarkedListed c.listed c.table.entries };
}

impl Cut {
    /// A cut that marks none of so many nodes.
    ///
    /// # Errors
    /// Memory for a table was refused.
    pub fn new(alloc: Global, entries: usize) -> Result<Cut, AllocError>
        requires few { entries ≤ row_limit }
        ensures { IfOk result (IsFresh (replicate entries false) entries) }
    {
        let table = Tracked::new(alloc, vec![in alloc; false; entries]?, entries)?;
        let listed = Touched::new(alloc, entries)?;
        Ok(Cut { table, listed })
    }

    /// The marks, and what was kept of them.
    #[inline(always)]
    pub fn table(&self) -> &Tracked<bool>
        ensures { result.now ≡ self.now }
    {
        &self.table
    }

    /// Exchanges the mark of a node.
    pub fn exchange(&mut self, node: usize, value: &mut bool)
        requires node { node < length self.old.entries }
        ensures written { IsWritten self.old self.new }
        ensures entries { self.new.entries ≡ slice_set self.old.entries node value.old }
        ensures value { value.new ≡ slice_index_or self.old.entries node value.old }
    {
        self.table.exchange(node, value);
        self.listed.note(node);
    }

    /// Keeps the marks that stand there.
    pub fn snapshot(&mut self)
        ensures { IsFresh self.old.entries self.old.room self.new }
    {
        self.table.snapshot();
    }

    /// Brings back the marks that were kept.
    pub fn bring_back(&mut self)
        requires as_many { length self.old.kept ≡ length self.old.entries }
        ensures { IsBroughtBack self.old self.new }
    {
        list(&mut self.listed, self.table.places());
        self.table.bring_back();
    }

    /// Marks these nodes, and no other; their list is taken over, for the one that was.
    pub fn take(&mut self, marked: &mut Touched)
        requires same_length { length marked.old ≡ length self.old.entries }
        ensures written { IsWritten self.old self.new }
        ensures entries { self.new.entries ≡ marked.old }
        ensures same_size { length marked.new ≡ length marked.old }
    {
        take_marks(&mut self.table, marked, self.listed.places());
        take_marks(&mut self.table, marked, marked.places());
        swap(&mut self.listed, marked);
    }
}

/// Makes the marks of these nodes in a table those that they have here.
fn take_marks(table: &mut Tracked<bool>, marked: &Touched, nodes: &[u32])
    requires same_length { length marked.now ≡ length table.old.entries }
    requires nodes_in { All (λ v. v < length marked.now) nodes.now }
    ensures written { IsWritten table.old table.new }
    ensures taken { AreTaken nodes.now table.old.entries table.new.entries marked.now }
{
    for node in nodes {
        let v = *node as usize;
        if table.get(v) != marked.is_noted(v) {
            table.set(v, marked.is_noted(v));
        }
    }
}

/// Lists these nodes, where they have an entry.
fn list(listed: &mut Touched, nodes: &[u32])
    ensures same_size { length listed.new ≡ length listed.old }
    ensures still { (v : ℕ) → in_set listed.old v ≡ true → in_set listed.new v ≡ true }
    ensures noted { AreNodesIn nodes.now listed.new }
{
    for node in nodes {
        let v = *node as usize;
        if v < listed.size() {
            listed.note(v);
        }
    }
}
