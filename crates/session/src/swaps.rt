//! Values that change places with those of the tables.

ghost use Rattle.std.specs.Prelude.{◌≡◌, ◌<◌, ◌≤◌, length};
ghost use Rattle.dimacs_text.specs.declared.problem.TheConstants.{ARC_LIMIT};
ghost use Rattle.network.specs.Flow.{IsPotential};
ghost use Rattle.network.specs.Instance.{IsLawful};
ghost use Rattle.flow_solver.specs.TablesView.{IsFlowValue};
ghost use Rattle.session.specs.Places.{taken, PlacesFit};
ghost use Rattle.session.specs.Parts.{named, listed, flow_of, named_turned, parts_swapped, PartsFit, put_in, left_by, next_after, PartFits, cut_off};
ghost use Rattle.session.specs.Record.{flows_swapped, marks_swapped, potentials_swapped, HasOneFlowAnArc, IsMomentInRange, IsMark};

use flow_solver::{Part, Tables};

/// Exchanges the flows of these arcs.
pub(crate) fn swap_flows(places: &mut [(u32, i64)], tables: &mut Tables)
    requires fit { PlacesFit IsFlowValue (length (flow_of tables.old.moment)) places.old }
    requires in_range { IsMomentInRange tables.old.moment }
    ensures places { places.new ≡ taken places.old (flow_of tables.old.moment) }
    ensures moment { tables.new.moment ≡ flows_swapped places.old tables.old.moment }
{
    for place in places.iter_mut() {
        tables.swap_flow(place.0, &mut place.1);
    }
}

/// Exchanges the potentials of these nodes.
pub(crate) fn swap_potentials(places: &mut [(u32, i64)], tables: &mut Tables)
    requires fit { PlacesFit IsPotential (length tables.old.moment.potentials) places.old }
    requires one_a_node { length tables.old.moment.potentials ≡ tables.old.moment.instance.nodes }
    ensures places { places.new ≡ taken places.old tables.old.moment.potentials }
    ensures moment { tables.new.moment ≡ potentials_swapped places.old tables.old.moment }
{
    for place in places.iter_mut() {
        tables.swap_potential(place.0, &mut place.1);
    }
}

/// Exchanges the marks of these nodes.
pub(crate) fn swap_marks(places: &mut [(u32, bool)], tables: &mut Tables)
    requires fit { PlacesFit IsMark (length tables.old.moment.cut) places.old }
    requires one_a_node { length tables.old.moment.cut ≡ tables.old.moment.instance.nodes }
    ensures places { places.new ≡ taken places.old tables.old.moment.cut }
    ensures moment { tables.new.moment ≡ marks_swapped places.old tables.old.moment }
{
    for place in places.iter_mut() {
        tables.swap_mark(place.0, &mut place.1);
    }
}

/// Exchanges the parts with the instance, and leaves those that lead back.
pub(crate) fn swap_parts(parts: &mut [Part], tables: &mut Tables)
    requires fit { PartsFit parts.old tables.old.moment.instance }
    requires lawful { IsLawful tables.old.moment.instance }
    requires one_an_arc { HasOneFlowAnArc tables.old.moment }
    ensures parts { parts.new ≡ listed (named_turned (named parts.old) tables.old.moment) }
    ensures moment { tables.new.moment ≡ parts_swapped (named parts.old) tables.old.moment }
{
    let go = arcs_that_go(parts);
    let mut next = tables.flow().len() - go;
    for part in parts.iter_mut() {
        *part = swap_part(*part, &mut next, tables);
    }
    drop_arcs(go, tables);
}

/// How many arcs the parts take off.
fn arcs_that_go(parts: &[Part]) -> usize
    ensures { result ≡ (named parts.now).go }
{
    let mut go = 0;
    for part in parts {
        if let Part::Last = part {
            go += 1;
        }
    }
    go
}

/// Exchanges one part, and gives what was there. An arc that goes is only read: `next` is the index of the next one.
fn swap_part(part: Part, next: &mut usize, tables: &mut Tables) -> Part
    requires { PartFits next.old part tables.old.moment }
    ensures part { result ≡ left_by next.old part tables.old.moment }
    ensures next { next.new ≡ next_after next.old part }
    ensures moment { tables.new.moment ≡ put_in part tables.old.moment }
{
    match part {
        Part::Arc { k, mut row } => {
            tables.swap_row(k, &mut row);
            Part::Arc { k, row }
        }
        Part::Supply { id, mut value } => {
            tables.swap_supply(id, &mut value);
            Part::Supply { id, value }
        }
        Part::Last => {
            let index = *next;
            *next += 1;
            arc_at_end(index, tables)
        }
        Part::Gone { row, flow } => {
            tables.put_last(row, flow);
            Part::Last
        }
    }
}

/// The part that brings back the arc at an index with its flow.
fn arc_at_end(index: usize, tables: &Tables) -> Part
    requires row { index < length tables.now.moment.instance.arcs }
    requires flow { index < length (flow_of tables.now.moment) }
    requires few { index < ARC_LIMIT }
    ensures { result ≡ left_by index Part.Last tables.now.moment }
{
    let Some(row) = tables.network().arc(index as u32 + 1) else {
        unreachable!()
    };
    Part::Gone {
        row,
        flow: tables.flow()[index],
    }
}

/// Takes off so many arcs.
fn drop_arcs(count: usize, tables: &mut Tables)
    requires rows { count ≤ length tables.old.moment.instance.arcs }
    requires flow { count ≤ length tables.old.moment.flow }
    ensures { tables.new.moment ≡ cut_off count tables.old.moment }
{
    for _ in 0..count {
        let _ = tables.drop_last();
    }
}
