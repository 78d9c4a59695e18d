//! The excess of each node, with the nodes out of balance at hand.

ghost use Rattle.std.specs.Prelude.{◌≡◌, ℕ, ◌<◌, ◌≤◌, pos, neg_ℤ, ◌≤ℤ◌, All, IfOk, IsTrue, ◌↔◌, false, length, slice_set, true};
ghost use Rattle.residual_graph.specs.Limits.{entry_limit, row_limit};
ghost use Rattle.cuts.specs.Cut.{HasNoDeficit, amount, amount_of, lack};
ghost use Rattle.cuts.specs.Excess.{AreUnbalancedListed, IsBalancedOrListed};
ghost use Rattle.flow_changes.specs.Limits.{excess_limit};
ghost use Rattle.flow_changes.specs.Push.{AreSmall, left};
ghost use Rattle.tracked.specs.Marks.{in_set};

use residual_graph::Side;
use std::alloc::{AllocError, Global};
use std::marker::Model;
use std::mem::swap;
use tracked::Touched;

/// Up to so many places, balanced nodes are left on the list.
const FEW_PLACES: usize = 64;

/// The excess of each node: what lies in excess is above 0, what lies in deficit below. Each node out of balance is
/// listed, and maybe others, so that few nodes out of balance are found without a look at all. It is seen as the
/// excesses.
#[derive(Drop)]
pub struct Excess {
    pub entries: Vec<i64>,
    pub unbalanced: Touched,
    /// A list that takes the place of the other where that has grown long.
    spare: Touched,
}

impl Model for Excess {
    ghost use Rattle.std.specs.Prelude.{◌≡◌, ℤ, List, length};
    ghost use Rattle.cuts.specs.Excess.{AreUnbalancedListed};

    ghost Value = { List ℤ };

    ghost view = { λ e. e.entries.items };

    ghost invariant = { λ e. AreUnbalancedListed e.unbalanced e.entries.items × (length e.spare ≡ length e.entries.items) };
}

impl Excess {
    /// Excesses, one a node.
    ///
    /// # Errors
    /// Memory for the list was refused.
    pub fn new(alloc: Global, entries: Vec<i64>) -> Result<Excess, AllocError>
        requires few { length entries.items ≤ row_limit }
        ensures { IfOk result (λ e. e ≡ entries.items) }
    {
        let mut unbalanced = Touched::new(alloc, entries.len())?;
        let spare = Touched::new(alloc, entries.len())?;
        note_all_unbalanced(&entries, &mut unbalanced);
        Ok(Excess {
            entries,
            unbalanced,
            spare,
        })
    }

    /// The excess of each node.
    pub fn entries(&self) -> &[i64]
        ensures { result.now ≡ self.now }
    {
        &self.entries
    }

    /// Sets the excess of a node.
    pub fn set(&mut self, v: usize, value: i64)
        requires node { v < length self.old }
        ensures { self.new ≡ slice_set self.old v value }
    {
        self.entries[v] = value;
        self.unbalanced.note(v);
    }

    /// Takes balanced nodes off the list, where it has grown long.
    pub fn tidy(&mut self)
        ensures { self.new ≡ self.old }
    {
        if self.unbalanced.places().len() > FEW_PLACES {
            self.spare.clear();
            note_unbalanced(self.unbalanced.places(), &self.entries, &mut self.spare);
            swap(&mut self.unbalanced, &mut self.spare);
        }
    }

    /// Whether a side has a root: ahead a node in excess, behind a node in deficit.
    pub fn has_root(&self, side: Side) -> bool
        ensures { IsTrue result ↔ (0 < amount side self.now) }
    {
        let places = self.unbalanced.places();
        for j in 0..places.len() {
            if side.is_root(self.entries[places[j] as usize]) {
                return true;
            }
        }
        false
    }

    /// What lies at the roots of a side: the sum of all excess, or of all deficit.
    pub fn amount(&self, side: Side) -> u64
        requires small { AreSmall self.now }
        requires few { length self.now ≤ entry_limit }
        ensures { result ≡ amount side self.now }
    {
        let mut sum = 0;
        for place in self.unbalanced.places() {
            sum += amount_of(side, self.entries[*place as usize]);
        }
        sum
    }

    /// Whether a marked node is in deficit.
    pub fn has_deficit_among(&self, marked: &Touched) -> bool
        requires one_a_node { length marked.now ≡ length self.now }
        ensures { result ≡ false → HasNoDeficit self.now marked.now }
    {
        let places = self.unbalanced.places();
        for j in 0..places.len() {
            let v = places[j] as usize;
            if marked.is_noted(v) && self.entries[v] < 0 {
                return true;
            }
        }
        false
    }

    /// Whether there are both nodes in excess and nodes in deficit.
    pub fn has_both(&self) -> bool
        ensures { IsTrue result ↔ ((0 < left self.now) × (0 < lack self.now)) }
    {
        self.has_root(Side::Ahead) && self.has_root(Side::Behind)
    }
}

/// What a node with this excess has as a root of a side.
fn amount_of(side: Side, excess: i64) -> u64
    requires small { neg_ℤ (pos excess_limit) ≤ℤ excess }
    ensures { result ≡ amount_of side excess }
{
    let amount = match side {
        Side::Ahead => excess,
        Side::Behind => -excess,
    };
    if amount > 0 { amount as u64 } else { 0 }
}

/// Notes each node out of balance.
fn note_all_unbalanced(entries: &[i64], unbalanced: &mut Touched)
    requires one_a_node { length unbalanced.old ≡ length entries.now }
    ensures { AreUnbalancedListed unbalanced.new entries.now }
{
    for v in 0..entries.len() {
        if entries[v] != 0 {
            unbalanced.note(v);
        }
    }
}

/// Notes each node out of balance among these.
pub fn note_unbalanced(nodes: &[u32], entries: &[i64], unbalanced: &mut Touched)
    requires nodes { All (λ v. v < length entries.now) nodes.now }
    requires one_a_node { length unbalanced.old ≡ length entries.now }
    ensures same_size { length unbalanced.new ≡ length unbalanced.old }
    ensures still { (v : ℕ) → in_set unbalanced.old v ≡ true → in_set unbalanced.new v ≡ true }
    ensures noted { All (IsBalancedOrListed unbalanced.new entries.now) nodes.now }
{
    for node in nodes {
        let v = *node as usize;
        if entries[v] != 0 {
            unbalanced.note(v);
        }
    }
}
