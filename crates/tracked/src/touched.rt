//! The places at which a table was written.

ghost use Rattle.std.specs.Prelude.{◌≡◌, ◌≢◌, ℕ, ◌<◌, ◌≤◌, true, false, length, slice_set, All, AllPairs, Any, IfOk, replicate};
ghost use Rattle.residual_graph.specs.Limits.{row_limit};
ghost use Rattle.tracked.specs.Marks.{in_set};

use std::alloc::{AllocError, Global};
use std::marker::Model;

/// Places of a table, each listed once. It has a mark for each place, and is seen as these marks.
#[derive(Drop)]
pub struct Touched {
    marks: Vec<bool>,
    /// With room for each place from the start: where few are noted, most of that memory is never touched.
    places: Vec<u32>,
}

impl Model for Touched {
    ghost use Rattle.std.specs.Prelude.{◌≤◌, List, Bool, length, vec_capacity};
    ghost use Rattle.residual_graph.specs.Limits.{row_limit};
    ghost use Rattle.tracked.specs.Marks.{IsListOf};

    ghost Value = { List Bool };

    ghost view = { λ t. t.marks.items };

    ghost invariant = { λ t. IsListOf t.marks.items t.places.items
        × (length t.marks.items ≤ row_limit)
        × (length t.marks.items ≤ vec_capacity t.places) };
}

impl Touched {
    /// No place of a table of this size.
    ///
    /// # Errors
    /// Memory for a table was refused.
    pub fn new(alloc: Global, size: usize) -> Result<Touched, AllocError>
        requires { size ≤ row_limit }
        ensures { IfOk result (λ t. t ≡ replicate size false) }
    {
        let marks = vec![in alloc; false; size]?;
        let places = Vec::with_capacity(alloc, size)?;
        Ok(Touched { marks, places })
    }

    /// How many places the table has.
    pub fn size(&self) -> usize
        ensures { result ≡ length self.now }
    {
        self.marks.len()
    }

    /// Notes a place.
    pub fn note(&mut self, place: usize)
        requires place { place < length self.old }
        ensures { self.new ≡ slice_set self.old place true }
    {
        if self.marks[place] {
            return;
        }
        self.marks[place] = true;
        self.places.push_reserved(place as u32);
    }

    /// Whether a place was noted.
    pub fn is_noted(&self, place: usize) -> bool
        requires place { place < length self.now }
        ensures { result ≡ in_set self.now place }
    {
        self.marks[place]
    }

    /// The places that were noted, each once.
    pub fn places(&self) -> &[u32]
        ensures listed { (k : ℕ) → in_set self.now k ≡ true → Any (λ p. p ≡ k) result.now }
        ensures noted { All (λ p. in_set self.now p ≡ true) result.now }
        ensures apart { AllPairs ◌≢◌ result.now }
    {
        &self.places
    }

    /// Forgets all places.
    pub fn clear(&mut self)
        ensures size { length self.new ≡ length self.old }
        ensures none { (k : ℕ) → in_set self.new k ≡ false }
    {
        for j in 0..self.places.len() {
            self.marks[self.places[j] as usize] = false;
        }
        self.places.clear();
    }
}
