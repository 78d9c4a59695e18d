//! What a step changes, kept so that it can be undone and done again.

ghost use Rattle.std.specs.Prelude.{◌≡◌, IsSome, IfOk, Some};
ghost use Rattle.flow_solver.specs.Answer.{IsAnswered};
ghost use Rattle.network.specs.Rows.{return_arcs};
ghost use Rattle.session.specs.Record.{RecordFits, Differs, with_record};
ghost use Rattle.session.specs.Session.{old_moment, ArePartsLogged};

mod building;

use crate::differences::differences;
use crate::swaps::{swap_flows, swap_marks, swap_parts, swap_potentials};
use building::parts_before;
use flow_solver::{Part, Tables, Verdict};
use history::Change;
use std::alloc::{AllocError, Allocator, Global};
use std::marker::Model;

/// What differs between two moments, with the values of the one farther from the present.
#[derive(Debug, Drop)]
pub struct Record<A: Allocator = Global> {
    /// The places that the step changes, outside which the instances are equal: nodes in rising order, then arcs of both
    /// moments in rising order, then the added arcs in their order.
    pub parts: Vec<Part, A>,
    /// The arcs of both moments whose flow differs, in rising order, each with its flow.
    pub flows: Vec<(u32, i64), A>,
    /// The nodes whose potential differs, in rising order, each with its potential.
    pub potentials: Vec<(u32, i64), A>,
    /// The nodes that are in one cut alone, in rising order, each with its mark.
    pub marks: Vec<(u32, bool), A>,
    /// The verdict of the other moment.
    pub verdict: Verdict,
}

impl<A: Allocator> Model for Record<A> {
    ghost use Rattle.session.specs.Record.{Recorded};

    ghost Value = { Recorded };

    ghost view = { λ r. record { parts = r.parts.items; flows = r.flows.items; potentials = r.potentials.items; marks = r.marks.items; verdict = r.verdict } };
}

impl<A: Allocator + Copy> Record<A> {
    /// What the last change of the tables changed.
    ///
    /// # Errors
    /// Memory for a list was refused.
    pub(crate) fn of_last_change(alloc: A, tables: &Tables) -> Result<Self, AllocError>
        requires before { IsSome tables.now.before }
        requires was_answered { IsAnswered (old_moment tables.now) }
        requires answered { IsAnswered tables.now.moment }
        ensures parts { IfOk result (λ r. ArePartsLogged tables.now r.parts) }
        ensures fits { IfOk result (λ r. RecordFits r tables.now.moment) }
        ensures leads { IfOk result
            (λ r. tables.now.before ≡ Some (with_record r tables.now.moment)) }
        ensures exact { IfOk result (λ r. Differs r tables.now.moment) }
    {
        let parts = parts_before(alloc, tables)?;
        let flows = differences(
            alloc,
            tables.touched_flow(),
            tables.network().return_arcs(),
            tables.old_flow(),
            tables.flow(),
        )?;
        let potentials = differences(
            alloc,
            tables.touched_potentials(),
            1,
            tables.old_potentials(),
            tables.potentials(),
        )?;
        let marks = differences(
            alloc,
            tables.touched_cut(),
            1,
            tables.old_cut(),
            tables.cut(),
        )?;
        Ok(Record {
            parts,
            flows,
            potentials,
            marks,
            verdict: tables.old_verdict(),
        })
    }
}

impl<A: Allocator> Change for Record<A> {
    ghost use Rattle.flow_solver.specs.Moment.{Moment};
    ghost use Rattle.session.specs.Record.{RecordFits, with_record, record_turned};
    ghost use Rattle.session.specs.RecordLaws.{fits_again, change_again, board_again};

    type Board = Tables;

    ghost Shown = { Moment };

    ghost shown = { λ t. t.moment };

    ghost Fits = { RecordFits };

    ghost turned = { record_turned };

    ghost swapped = { with_record };

    ghost fits_again = { fits_again };

    ghost change_again = { change_again };

    ghost board_again = { board_again };

    fn swap(&mut self, tables: &mut Tables) {
        swap_flows(&mut self.flows, tables);
        swap_potentials(&mut self.potentials, tables);
        swap_marks(&mut self.marks, tables);
        tables.swap_verdict(&mut self.verdict);
        swap_parts(&mut self.parts, tables);
    }
}
