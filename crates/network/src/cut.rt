//! The two values of a cut, each of which rules out a legal flow where it is above 0.
ghost use Rattle.std.specs.Prelude.{◌≡◌, ◌+◌, ◌*◌, ◌<◌, ◌≤◌, All, length, unsigned_abs};
ghost use Rattle.network.specs.Flow.{supply_of};
ghost use Rattle.network.specs.Cut.{arc_part, arcs_part, cut_value, supply_in};
ghost use Rattle.dimacs_text.specs.Lawful.{IsLawfulRow, IsWithin};
ghost use Rattle.dimacs_text.specs.declared.problem.TheConstants.{CAP_LIMIT, NODE_LIMIT, SUPPLY_LIMIT};
ghost use Rattle.network.specs.declared.TheConstants.{RETURN_CAP};
ghost use Rattle.network.specs.Instance.{is_marked, reduced};

use crate::{CutForm, Network};
use dimacs_text::{ARC_LIMIT, ArcRow};

/// What an arc adds to the value of a cut.
fn arc_part(form: CutForm, arc: &ArcRow, cut: &[bool]) -> i64
    requires tail { (1 ≤ arc.now.tail) × (arc.now.tail ≤ length cut.now) }
    requires head { (1 ≤ arc.now.head) × (arc.now.head ≤ length cut.now) }
    requires low { IsWithin RETURN_CAP arc.now.low }
    requires cap { IsWithin RETURN_CAP arc.now.cap }
    ensures value { result ≡ arc_part form (is_marked cut.now) arc.now }
    ensures small { unsigned_abs result ≤ unsigned_abs arc.now.low + unsigned_abs arc.now.cap }
{
    let tail = cut[arc.tail as usize - 1];
    let head = cut[arc.head as usize - 1];
    let (from, to) = match form {
        CutForm::Surplus => (head, tail),
        CutForm::Shortfall => (tail, head),
    };
    if from && !to {
        arc.low
    } else if to && !from {
        -arc.cap
    } else {
        0
    }
}

/// What the arcs add to the value of a cut.
fn arcs_part(form: CutForm, arcs: &[ArcRow], cut: &[bool]) -> i64
    requires few { length arcs.now ≤ ARC_LIMIT }
    requires limits { All (IsLawfulRow (length cut.now)) arcs.now }
    ensures value { result ≡ arcs_part form (is_marked cut.now) arcs.now }
    ensures small { unsigned_abs result ≤ 2 * CAP_LIMIT * ARC_LIMIT }
{
    let mut total = 0;
    for arc in arcs {
        total += arc_part(form, arc, cut);
    }
    total
}

impl Network {
    /// The supply of node k + 1, if it is in the set.
    fn supply_in(&self, cut: &[bool], k: usize) -> i64
        requires nodes { length cut.now ≡ self.now.nodes }
        requires node { k < self.now.nodes }
        ensures value { result ≡ supply_in (reduced self.now) (is_marked cut.now) (k + 1) }
        ensures small { IsWithin SUPPLY_LIMIT result }
    {
        if cut[k] { self.supplies[k] } else { 0 }
    }

    /// The supply of a set of nodes.
    fn supply_of(&self, cut: &[bool]) -> i64
        requires nodes { length cut.now ≡ self.now.nodes }
        ensures value { result ≡ supply_of (reduced self.now) (is_marked cut.now) }
        ensures small { unsigned_abs result ≤ unsigned_abs SUPPLY_LIMIT * NODE_LIMIT }
    {
        let mut total = 0;
        for k in 0..self.supplies.len() {
            total += self.supply_in(cut, k);
        }
        total
    }

    /// What the arcs of the reduced instance add to the value of a cut.
    fn reduced_part(&self, form: CutForm, cut: &[bool]) -> i64
        requires nodes { length cut.now ≡ self.now.nodes }
        ensures value { result ≡ arcs_part form (is_marked cut.now) (reduced self.now).arcs }
        ensures small { unsigned_abs result ≤ 2 * CAP_LIMIT * ARC_LIMIT + unsigned_abs RETURN_CAP }
    {
        let arcs = arcs_part(form, self.numbered(), cut);
        match self.return_arc() {
            Some(arc) => arcs + arc_part(form, &arc, cut),
            None => arcs,
        }
    }

    /// The value of a cut by one of its forms.
    pub(crate) fn cut_value(&self, form: CutForm, cut: &[bool]) -> i64
        requires nodes { length cut.now ≡ self.now.nodes }
        ensures { result ≡ cut_value form (reduced self.now) (is_marked cut.now) }
    {
        let part = self.reduced_part(form, cut);
        let supply = self.supply_of(cut);
        match form {
            CutForm::Surplus => supply + part,
            CutForm::Shortfall => part - supply,
        }
    }
}
