//! The numbers at which two lists differ.

ghost use Rattle.std.specs.Prelude.{◌≡◌, ◌≢◌, ℕ, ◌+◌, ◌<◌, ◌≤◌, ◌^◌, All, AllPairs, IfOk, MatchOption, length};
ghost use Rattle.std.specs.Bool.{Decides};
ghost use Rattle.flow_solver.specs.Touched.{NameChanges, AgreeAt};
ghost use Rattle.session.specs.Places.{AreFound, DifferAt};

use std::alloc::{AllocError, Allocator};

/// The numbers, counted from 1 and rising, at which the lists differ, with the old values. The indices name them all,
/// and maybe others, each once; `first` is the index of the lists' first values.
///
/// # Errors
/// Memory for a list was refused. Each list takes its memory at once.
pub(crate) fn differences<T: Copy + PartialEq, A: Allocator + Copy>(
    alloc: A,
    indices: &[u32],
    first: usize,
    old: &[T],
    new: &[T],
) -> Result<Vec<(u32, T), A>, AllocError>
    requires exact { (x y : T) → Decides (T.eq x y) (x ≡ y) }
    requires small { length old.now + 1 < 2 ^ 32 }
    requires fewer { length old.now ≤ length new.now }
    requires named { NameChanges first indices.now old.now new.now }
    requires apart { AllPairs ◌≢◌ indices.now }
    ensures { IfOk result (λ found. AreFound found.items old.now new.now (length old.now)) }
{
    let mut numbers = differing(alloc, indices, first, old, new)?;
    numbers.sort_unstable();
    let mut found = Vec::with_capacity(alloc, numbers.len())?;
    for number in &numbers {
        found.push_reserved((*number, old[*number as usize - 1]));
    }
    Ok(found)
}

/// The numbers, each once and in no order, of those indices at which the lists differ.
fn differing<T: Copy + PartialEq, A: Allocator>(
    alloc: A,
    indices: &[u32],
    first: usize,
    old: &[T],
    new: &[T],
) -> Result<Vec<u32, A>, AllocError>
    requires exact { (x y : T) → Decides (T.eq x y) (x ≡ y) }
    requires small { length old.now + 1 < 2 ^ 32 }
    requires fewer { length old.now ≤ length new.now }
    requires named { NameChanges first indices.now old.now new.now }
    requires apart { AllPairs ◌≢◌ indices.now }
    ensures differ { IfOk result (λ numbers. All (DifferAt old.now new.now) numbers.items) }
    ensures named { IfOk result (λ numbers. NameChanges 1 numbers.items old.now new.now) }
    ensures apart { IfOk result (λ numbers. AllPairs ◌≢◌ numbers.items) }
{
    let mut numbers = Vec::with_capacity(alloc, indices.len())?;
    for index in indices {
        if let Some(number) = difference(*index, first, old, new) {
            numbers.push_reserved(number);
        }
    }
    Ok(numbers)
}

/// The number of the value at the index, where the lists differ there.
fn difference<T: Copy + PartialEq>(index: u32, first: usize, old: &[T], new: &[T]) -> Option<u32>
    requires exact { (x y : T) → Decides (T.eq x y) (x ≡ y) }
    requires small { length old.now + 1 < 2 ^ 32 }
    requires fewer { length old.now ≤ length new.now }
    ensures { MatchOption result
        ((k : ℕ) → k < length old.now → index ≡ k + first → AgreeAt old.now new.now k)
        (λ number. DifferAt old.now new.now number × (index + 1 ≡ number + first)) }
{
    let k = (index as usize).checked_sub(first)?;
    let value = *old.get(k)?;
    if value == new[k] {
        return None;
    }
    Some(k as u32 + 1)
}
