//! The forest of a tree of labels, which follows what is known of predecessors.

ghost use Rattle.std.specs.Prelude.{◌≡◌};

use super::{Tree, entry};
use crate::residual_network::Residual;

impl Tree {
    /// Has the nodes hang in the forest as their predecessors tell, where the residual arcs of these may have changed; all of
    /// them where none hangs yet.
    pub(super) fn rejoin_changed(&mut self, residual: Residual<'_>, written: &[u32])
        ensures { self.new ≡ self.old }
    {
        if self.forest.is_grown() {
            self.rejoin_beside(residual);
            self.rejoin_along(residual, written);
            return;
        }
        self.forest.grow();
        for v in 0..residual.potentials.len() {
            self.rejoin(residual, v as u32);
        }
    }

    /// Has the nodes beside noted arcs hang so that hang by such an arc.
    fn rejoin_beside(&mut self, residual: Residual<'_>)
        ensures { self.new ≡ self.old }
    {
        for i in 0..self.beside.places().len() {
            let v = entry(self.beside.places(), i);
            let k = self.end_above(v) as usize / 2;
            if k >= self.noted.size() || self.noted.is_noted(k) {
                self.rejoin(residual, v);
            }
        }
    }

    /// Has the nodes hang so that hang by one of these arcs.
    fn rejoin_along(&mut self, residual: Residual<'_>, written: &[u32])
        ensures { self.new ≡ self.old }
    {
        for arc in written {
            let k = *arc as usize;
            if k < residual.graph.rows().len() {
                let row = residual.graph.row(k);
                self.rejoin_by(residual, row.tail, k);
                self.rejoin_by(residual, row.head, k);
            }
        }
    }

    /// Has a node hang so if it hangs by this arc.
    fn rejoin_by(&mut self, residual: Residual<'_>, v: u32, k: usize)
        ensures { self.new ≡ self.old }
    {
        if self.end_above(v) as usize / 2 == k {
            self.rejoin(residual, v);
        }
    }

    /// Has the nodes hang so that may have another predecessor.
    pub(super) fn rejoin_touched(&mut self, residual: Residual<'_>)
        ensures { self.new ≡ self.old }
    {
        for i in 0..self.touched.places().len() {
            let v = entry(self.touched.places(), i);
            if self.forest.joint(v).end != self.end_above(v) {
                self.rejoin(residual, v);
            }
        }
    }

    /// Has a node hang so.
    fn rejoin(&mut self, residual: Residual<'_>, v: u32)
        ensures { self.new ≡ self.old }
    {
        let end = self.end_above(v);
        self.forest.hang(residual, v, end);
    }

    /// The end at which the residual arc leaves by which a node got its label, or one that no arc has.
    fn end_above(&self, v: u32) -> u32 {
        if (v as usize) < self.predecessors.len() {
            self.predecessors[v as usize].end
        } else {
            u32::MAX
        }
    }
}
