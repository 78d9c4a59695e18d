//! Arrays are taken as the text that says the same.

ghost use Rattle.std.specs.Prelude.{◌≡◌, Ok, Err};
ghost use Rattle.dimacs_lines.specs.declared.fault.TextFault.TheVariants as faults;
ghost use Rattle.dimacs_text.specs.Reading.{reads};
ghost use Rattle.c_calls.specs.declared.array_fault.ArrayFault.{ArrayFault};
ghost use Rattle.c_calls.specs.declared.arrays.Arrays.{Arrays};
ghost use Rattle.c_calls.specs.Arrays.{AreFaultless, IsEven, IsFirstFault, problem_of};
ghost use Rattle.c_calls.specs.ArrayText.{FitTheirTypes, array_text, fault_line};

/// A law, with nothing to run: the text of arrays without a fault is read as their problem, and the first fault of others is
/// that of their text, by its number and its line.
pub fn arrays_are_as_their_text()
    ensures problem { (a : Arrays) → IsEven a → FitTheirTypes a → AreFaultless a
        → reads (array_text a) ≡ Ok (problem_of a) }
    ensures fault { (a : Arrays) (f : ArrayFault) → IsEven a → FitTheirTypes a → IsFirstFault a f
        → reads (array_text a) ≡ Err (faults.Fault f.number (fault_line a f)) }
{}
