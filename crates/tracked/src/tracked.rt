//! A table beside what stood in it before.

ghost use Rattle.std.specs.Prelude.{◌≡◌, ◌<◌, ◌≤◌, length, slice_index_or, slice_set, IfOk, vec_capacity};
ghost use Rattle.tracked.specs.Touched.{NameChanges};
ghost use Rattle.tracked.specs.Tracked.{IsAppended, IsBroughtBack, IsFresh, IsTakenOff, IsWritten, MarkAllChanges, NameAllChanges};
ghost use Rattle.residual_graph.specs.Limits.{row_limit};

use crate::touched::Touched;
use std::alloc::{AllocError, Global};
use std::marker::Model;

/// A table, what stood in it at the last snapshot, and the places at which it was written since. To take a snapshot, to
/// compare with it and to bring it back cost no more than these places.
#[derive(Drop)]
pub struct Tracked<T> {
    pub entries: Vec<T>,
    /// What was kept, and behind it what was added since: as long as the entries.
    whole: Vec<T>,
    /// How many entries were kept.
    size: usize,
    pub touched: Touched,
}

impl<T> Model for Tracked<T> {
    ghost use Rattle.std.specs.Prelude.{length, take, vec_capacity};
    ghost use Rattle.tracked.specs.Tracked.{TrackedView, tracked_code, IsTracked};

    ghost Value = { TrackedView T };

    ghost coded = { tracked_code T.code };

    ghost view = { λ t. record {
      entries = t.entries.items;
      kept = take t.size t.whole.items;
      whole = t.whole.items;
      room = length t.touched;
    } };

    ghost invariant = { λ t. IsTracked t.entries.items t.whole.items t.size t.touched (vec_capacity t.entries) (vec_capacity t.whole) };
}

impl<T: Copy> Tracked<T> {
    /// A table with these entries, all of them kept, with room for as many as they have.
    ///
    /// # Errors
    /// Memory for a table was refused.
    pub fn new(alloc: Global, entries: Vec<T>, room: usize) -> Result<Tracked<T>, AllocError>
        requires fits { length entries.items ≤ room }
        requires few { room ≤ row_limit }
        requires room { room ≤ vec_capacity entries }
        ensures { IfOk result (IsFresh entries.items room) }
    {
        let mut whole = Vec::with_capacity(alloc, room)?;
        whole.extend_from_slice(&entries)?;
        let size = entries.len();
        let touched = Touched::new(alloc, room)?;
        Ok(Tracked {
            entries,
            whole,
            size,
            touched,
        })
    }

    /// The entries.
    #[inline(always)]
    pub fn entries(&self) -> &[T]
        ensures { result.now ≡ self.now.entries }
    {
        &self.entries
    }

    /// An entry.
    #[inline(always)]
    pub fn get(&self, place: usize) -> T
        requires { place < length self.now.entries }
        ensures { result ≡ slice_index_or self.now.entries place result }
    {
        self.entries[place]
    }

    /// What was kept.
    pub fn before(&self) -> &[T]
        ensures { result.now ≡ self.now.kept }
    {
        &self.whole[..self.size]
    }

    /// What was kept, and behind it what was added since.
    #[inline(always)]
    pub fn whole(&self) -> &[T]
        ensures value { result.now ≡ self.now.whole }
        ensures as_many { length result.now ≡ length self.now.entries }
    {
        &self.whole
    }

    /// Places, each once and in no order, which name each one at which the entries differ from what was kept, and maybe
    /// others: some may lie past the end.
    pub fn places(&self) -> &[u32]
        ensures { NameAllChanges result.now self.now }
    {
        self.touched.places()
    }

    /// Where the table may have been written since the snapshot.
    pub fn written(&self) -> &Touched
        ensures { MarkAllChanges result.now self.now }
    {
        &self.touched
    }

    /// Writes an entry.
    pub fn set(&mut self, place: usize, value: T)
        requires place { place < length self.old.entries }
        ensures written { IsWritten self.old self.new }
        ensures entries { self.new.entries ≡ slice_set self.old.entries place value }
    {
        self.entries[place] = value;
        self.touched.note(place);
    }

    /// Exchanges an entry with a value.
    pub fn exchange(&mut self, place: usize, value: &mut T)
        requires place { place < length self.old.entries }
        ensures written { IsWritten self.old self.new }
        ensures entries { self.new.entries ≡ slice_set self.old.entries place value.old }
        ensures value { value.new ≡ slice_index_or self.old.entries place value.old }
    {
        let before = self.get(place);
        self.set(place, *value);
        *value = before;
    }

    /// Keeps what stands in the table.
    pub fn snapshot(&mut self)
        ensures { IsFresh self.old.entries self.old.room self.new }
    {
        catch_up(&mut self.whole, &self.entries, self.touched.places());
        self.size = self.entries.len();
        self.touched.clear();
    }

    /// Brings back what was kept.
    pub fn bring_back(&mut self)
        requires as_many { length self.old.kept ≡ length self.old.entries }
        ensures { IsBroughtBack self.old self.new }
    {
        catch_up(&mut self.entries, &self.whole, self.touched.places());
        self.touched.clear();
    }

    /// Adds an entry at the end.
    pub fn push(&mut self, value: T)
        requires room { length self.old.entries < self.old.room }
        ensures { IsAppended value self.old self.new }
    {
        let Ok(()) = self.entries.push(value) else {
            unreachable!()
        };
        let Ok(()) = self.whole.push(value) else {
            unreachable!()
        };
    }

    /// Takes the last entry off. What was kept stays, unless it was the last entry of that.
    pub fn pop(&mut self) -> T
        requires some { 0 < length self.old.entries }
        ensures { IsTakenOff result self.old self.new }
    {
        let Some(last) = self.entries.pop() else {
            unreachable!()
        };
        let _ = self.whole.pop();
        self.size = self.size.min(self.entries.len());
        last
    }
}

/// Makes a table the same as another of its length, where these places name each one at which they differ.
fn catch_up<T: Copy>(table: &mut [T], other: &[T], places: &[u32])
    requires same_length { length other.now ≡ length table.old }
    requires named { NameChanges 0 places.now table.old other.now }
    ensures { table.new ≡ other.now }
{
    for place in places {
        let k = *place as usize;
        // The last entries may have been taken off since the place was noted.
        if k < table.len() {
            table[k] = other[k];
        }
    }
}
