//! The ends of arcs at all nodes, with the room of their residual arcs.

ghost use Rattle.std.specs.Prelude.{◌≡◌, ◌<◌, ◌≤◌, ◌+◌, ◌^◌, IfOk, IfSome, length};
ghost use Rattle.residual_ends.specs.Limits.{IsWithin, room_limit};
ghost use Rattle.residual_ends.specs.Links.{LeadTo};

use crate::arc::Arc;
use crate::link::Link;
use crate::span::{Borders, Span};
use containers::both;
use std::alloc::{AllocError, Global};
use std::marker::Model;

/// The ends of arcs at each node, side by side. It is seen as the number of entries that a table of nodes has.
#[derive(Drop)]
pub struct ResidualEnds {
    /// Where the links of each node stand, one node behind the other.
    pub(crate) spans: Vec<Span>,
    pub(crate) links: Vec<Link>,
    /// Where the parts of each node's ends stop, once the ends are in order: its room is touched only then.
    pub(crate) borders: Vec<Borders>,
    /// Whether the ends with room to leave a node alone are a part of their own.
    pub(crate) by_side: bool,
    /// The number of the end at each place: 2k is the tail of arc k, and 2k + 1 its head.
    pub(crate) numbers: Vec<u32>,
    /// The place of the tail of each arc.
    pub(crate) tails: Vec<u32>,
    /// How many arcs are entered.
    pub(crate) entered: usize,
}

impl Model for ResidualEnds {
    ghost use Rattle.std.specs.Prelude.{ℕ, ◌≡◌, ◌^◌, ◌<◌, length};
    ghost use Rattle.residual_ends.specs.Links.{AreLinks, AreSpans};

    ghost Value = { ℕ };

    ghost view = { λ e. length e.spans.items };

    ghost invariant = { λ e. (length e.links.items < 2 ^ 32)
        × (length e.numbers.items ≡ length e.links.items)
        × AreSpans (length e.links.items) e.spans.items
        × AreLinks (length e.spans.items) e.links.items };
}

/// Ends of arcs at a node: the place of the first, all of them, and their numbers.
#[derive(Clone, Copy)]
pub struct Ends<'a> {
    pub first: u32,
    pub links: &'a [Link],
    pub numbers: &'a [u32],
}

impl ResidualEnds {
    /// A table with room for so many arcs, which has none.
    ///
    /// # Errors
    /// Memory for a table was refused.
    pub fn new(alloc: Global, entries: usize, arcs: usize) -> Result<ResidualEnds, AllocError>
        requires entries { entries < 2 ^ 31 }
        requires arcs { arcs < 2 ^ 31 }
        ensures { IfOk result (λ e. e ≡ entries) }
    {
        let places = if entries > 0 { 2 * arcs } else { 0 };
        let links = both(
            vec![in alloc; Span::NONE; entries],
            vec![in alloc; Link::NONE; places],
        );
        let borders = Vec::with_capacity(alloc, entries);
        let numbers = both(vec![in alloc; 0; places], vec![in alloc; 0; arcs]);
        let ((spans, links), (borders, (numbers, tails))) = both(links, both(borders, numbers))?;
        Ok(ResidualEnds {
            spans,
            links,
            borders,
            by_side: false,
            numbers,
            tails,
            entered: 0,
        })
    }

    /// The number of entries of a table of nodes.
    #[inline(always)]
    pub fn entries(&self) -> usize
        ensures { result ≡ self.now }
    {
        self.spans.len()
    }

    /// How many ends of arcs there are, without the room for arcs that may be added: so what searches may cost does not
    /// depend on it, and a session opens on the flow that a solve prints.
    pub fn count(&self) -> usize {
        self.entered.saturating_mul(2)
    }

    /// The ends of arcs at a node.
    #[inline(always)]
    pub fn at(&self, v: usize) -> Ends<'_>
        requires { v < self.now }
        ensures nodes { LeadTo self.now result.links.now }
        ensures numbers { length result.numbers.now ≡ length result.links.now }
        ensures small { result.first + length result.links.now < 2 ^ 32 }
    {
        let span = self.spans[v];
        let (first, end) = (span.first as usize, span.end as usize);
        Ends {
            first: span.first,
            links: &self.links[first..end],
            numbers: &self.numbers[first..end],
        }
    }

    /// The link at a place, if it is one.
    #[inline(always)]
    pub fn link(&self, place: u32) -> Option<Link>
        ensures { IfSome result (λ link. link.other < self.now) }
    {
        let place = place as usize;
        if place < self.links.len() {
            Some(self.links[place])
        } else {
            None
        }
    }

    /// The flow of an arc that was taken over with these numbers; of one that was left out, its lower bound.
    #[inline(always)]
    pub fn flow_of(&self, k: usize, arc: &Arc) -> i64 {
        let Some(link) = self.link(self.tail_of(k)) else {
            return arc.low;
        };
        arc.narrowed().cap.saturating_sub(link.room::<true>())
    }

    /// Writes a link, where there is such a place.
    #[inline(always)]
    pub(crate) fn put(&mut self, place: usize, link: Link)
        requires { link.other < self.old }
        ensures { self.new ≡ self.old }
    {
        if place < self.links.len() {
            self.links[place] = link;
        }
    }

    /// Writes down at one end of an arc that so much flow leaves there, where it fits, and gives that end as it was.
    #[inline(always)]
    pub fn bend(&mut self, place: u32, amount: i64) -> Option<Link>
        requires { IsWithin room_limit amount }
        ensures kept { self.new ≡ self.old }
        ensures node { IfSome result (λ link. link.other < self.old) }
    {
        let link = self.link(place)?;
        let moved = link.moved(amount)?;
        self.put(place as usize, moved);
        Some(link)
    }
}
