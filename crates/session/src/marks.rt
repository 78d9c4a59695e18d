//! The marks of a session: names that moments bear.

ghost use Rattle.std.specs.Prelude.{◌≡◌, ◌∷◌, []};
ghost use Rattle.std.specs.Bool.{OnTrue, OnFalse};
ghost use Rattle.session.specs.Marks.{has_place, marked, place_of, up_to, with_mark};

use arrayvec::ArrayVec;
use dimacs_text::Name;
use std::marker::Model;

/// The most names that have marks.
pub const MARK_LIMIT: usize = 16;

/// A name, and the number of the moment that bears it, counted from 0 at the opening.
#[derive(Clone, Copy, Debug)]
pub struct Mark {
    pub name: Name,
    pub moment: usize,
}

impl Mark {
    ghost use Rattle.session.specs.Marks.{has_name};

    /// Whether it is that of the name.
    fn has_name(&self, name: &Name) -> bool
        ensures { result ≡ has_name self.now name.now }
    {
        self.name == *name
    }
}

/// What the unused places of an array of marks hold.
impl Default for Mark {
    fn default() -> Self {
        match Name::of(b"unused") {
            Some(name) => Mark { name, moment: 0 },
            None => unreachable!(),
        }
    }
}

/// At most `MARK_LIMIT` marks, no two of one name. Putting one cannot fail for lack of memory.
#[derive(Drop)]
pub(crate) struct Marks {
    all: ArrayVec<Mark, MARK_LIMIT>,
}

impl Model for Marks {
    ghost use Rattle.std.specs.Prelude.{List};
    ghost use Rattle.session.specs.declared.marks.Mark.{Mark};

    ghost Value = { List Mark };

    ghost view = { λ m. m.all.items };
}

impl Marks {
    /// No marks.
    pub(crate) fn new() -> Self
        ensures { result ≡ [] }
    {
        Marks {
            all: ArrayVec::new(),
        }
    }

    /// The moment that bears the name, if one does.
    pub(crate) fn moment_of(&self, name: &Name) -> Option<usize>
        ensures { result ≡ marked self.now name.now }
    {
        for mark in self.all.as_slice() {
            if mark.has_name(name) {
                return Some(mark.moment);
            }
        }
        None
    }

    /// Puts the name's mark on the moment, or moves it there. False where as many other names have marks as there may be.
    pub(crate) fn put(&mut self, name: &Name, moment: usize) -> bool
        ensures answer { result ≡ has_place self.old name.now }
        ensures put { OnTrue result (self.new ≡ with_mark self.old name.now moment) }
        ensures unchanged { OnFalse result (self.new ≡ self.old) }
    {
        let mark = Mark {
            name: *name,
            moment,
        };
        let place = self.place_of(name);
        if let Some(there) = self.all.get_mut(place) {
            *there = mark;
            return true;
        }
        if self.all.is_full() {
            return false;
        }
        self.all.push(mark);
        true
    }

    /// Takes away the marks of the moments after that one.
    pub(crate) fn keep_up_to(&mut self, last: usize)
        ensures { self.new ≡ up_to last self.old }
    {
        self.all.retain(|mark| mark.moment <= last);
    }

    /// How many marks stand before that of the name; all where it has none.
    fn place_of(&self, name: &Name) -> usize
        ensures { result ≡ place_of self.now name.now }
    {
        let mut place = 0;
        for mark in self.all.as_slice() {
            if mark.has_name(name) {
                return place;
            }
            place += 1;
        }
        place
    }
}
