//! How single arcs get places among the others, and give them back.

ghost use Rattle.std.specs.Prelude.{◌≡◌, ◌<◌, IfSome, IsTrue};

use crate::arc::Arc;
use crate::link::Link;
use crate::span::Borders;
use crate::table::ResidualEnds;

impl ResidualEnds {
    /// Enters one more arc, where its numbers are within the limits and the links of at most `left` nodes are moved for that;
    /// says whether it could, and takes these nodes off `left`.
    pub fn add(&mut self, k: usize, arc: &Arc, left: &mut usize) -> bool
        ensures { self.new ≡ self.old }
    {
        let entries = self.entries();
        if arc.tail as usize >= entries || arc.head as usize >= entries {
            return false;
        }
        let arc = arc.narrowed();
        let Ok(number) = u32::try_from(k) else {
            return false;
        };
        if !arc.is_in_limits() {
            return false;
        }
        let Some(tail) = self.free_place(arc.tail as usize, left) else {
            return false;
        };
        // It moves as others do, and has no other end to be told of that.
        self.settle_link(tail, Link::NONE.facing(u32::MAX), number.saturating_mul(2));
        let Some(head) = self.free_place(arc.head as usize, left) else {
            return false;
        };
        self.put_ends(k, &arc, self.tail_of(k), head);
        self.put_arc_in_order(k);
        self.entered = self.entered.saturating_add(1);
        true
    }

    /// Takes an arc out that is entered.
    pub fn take_out(&mut self, k: usize)
        ensures { self.new ≡ self.old }
    {
        if let Some(ends) = self.ends_of(k) {
            self.take_end_out(ends.tail.other as usize, ends.tail.opposite);
            self.take_end_out(ends.head.other as usize, self.tail_of(k));
        }
        self.note_tail(k, u32::MAX);
        self.entered = self.entered.saturating_sub(1);
    }

    /// Takes the end at this place out of a node's links: the last one of its part gets its place, the last one of the next
    /// part the place that is free then, and so on.
    fn take_end_out(&mut self, v: usize, place: u32)
        requires { v < self.old }
        ensures { self.new ≡ self.old }
    {
        let span = self.spans[v];
        let mut borders = self.borders_of(v, span);
        let last = span.end.saturating_sub(1);
        let mut gap = place;
        if gap < borders.free {
            borders.free = borders.free.saturating_sub(1);
            self.move_link(borders.free, gap);
            gap = borders.free;
        }
        if gap < borders.leaving {
            borders.leaving = borders.leaving.saturating_sub(1);
            self.move_link(borders.leaving, gap);
            gap = borders.leaving;
        }
        self.set_borders(v, borders);
        self.set_span(v, span.first, last);
        self.move_link(last, gap);
    }

    /// Takes the place behind a node's links, which is freed where one is free at most `left` nodes away. For that the links
    /// of the nodes up to there move by one place, of each node two alone; these nodes are taken off `left`.
    fn free_place(&mut self, v: usize, left: &mut usize) -> Option<u32>
        requires { v < self.old }
        ensures { self.new ≡ self.old }
    {
        let gap = self.nearest_gap(v)?;
        *left = left.checked_sub(gap.abs_diff(v))?;
        for moved in 0..gap.saturating_sub(v) {
            self.move_up(gap - moved);
        }
        for node in gap.saturating_add(1)..v.saturating_add(1) {
            self.move_down(node);
        }
        let span = self.spans[v];
        self.set_span(v, span.first, span.end.saturating_add(1));
        Some(span.end)
    }

    /// The node nearest to one, in the order of their links, behind whose links a place is free.
    fn nearest_gap(&self, v: usize) -> Option<usize>
        ensures { IfSome result (λ gap. gap < self.now) }
    {
        for distance in 0..self.entries() {
            let above = v.saturating_add(distance);
            if self.has_gap(above) {
                return Some(above);
            }
            let below = v.saturating_sub(distance);
            if self.has_gap(below) {
                return Some(below);
            }
        }
        None
    }

    /// Whether a place is free behind a node's links.
    fn has_gap(&self, v: usize) -> bool
        ensures { IsTrue result → v < self.now }
    {
        if v >= self.spans.len() {
            return false;
        }
        let next = match self.spans.get(v + 1) {
            Some(span) => span.first as usize,
            None => self.links.len(),
        };
        (self.spans[v].end as usize) < next
    }

    /// Moves a node's links by one place, into the free one behind them: the first one of each part goes behind it.
    fn move_up(&mut self, v: usize)
        requires { v < self.old }
        ensures { self.new ≡ self.old }
    {
        let span = self.spans[v];
        let Borders { free, leaving } = self.borders_of(v, span);
        self.set_span(v, span.first.saturating_add(1), span.end.saturating_add(1));
        let after = Borders {
            free: free.saturating_add(1),
            leaving: leaving.saturating_add(1),
        };
        self.set_borders(v, after);
        self.move_link(leaving, span.end);
        self.move_link(free, leaving);
        self.move_link(span.first, free);
    }

    /// The same into the free place before them: the last one of each part goes before it.
    fn move_down(&mut self, v: usize)
        requires { v < self.old }
        ensures { self.new ≡ self.old }
    {
        let span = self.spans[v];
        let before = span.first.saturating_sub(1);
        let last = span.end.saturating_sub(1);
        let borders = self.borders_of(v, span);
        let free = borders.free.saturating_sub(1);
        let leaving = borders.leaving.saturating_sub(1);
        self.set_span(v, before, last);
        self.set_borders(v, Borders { free, leaving });
        self.move_link(free, before);
        self.move_link(leaving, free);
        self.move_link(last, leaving);
    }

    /// Gives an end of an arc another place.
    fn move_link(&mut self, from: u32, to: u32)
        ensures { self.new ≡ self.old }
    {
        if from == to {
            return;
        }
        if let Some(link) = self.link(from) {
            self.settle_link(to, link, self.number_at(from));
        }
    }

    /// Writes an end of an arc, which has this number, at a place, and tells that to its other end.
    pub(crate) fn settle_link(&mut self, place: u32, link: Link, number: u32)
        requires { link.other < self.old }
        ensures { self.new ≡ self.old }
    {
        self.put(place as usize, link);
        if let Some(across) = self.link(link.opposite) {
            self.put(link.opposite as usize, across.facing(place));
        }
        self.note_number(place, number);
        if number % 2 == 0 {
            self.note_tail(number as usize / 2, place);
        }
    }
}
