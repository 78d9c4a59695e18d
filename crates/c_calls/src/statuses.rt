//! The statuses by their numbers in `mcf.h`, so that no definition of a contract moves with a constant.

ghost use Rattle.std.specs.Prelude.{◌≡◌, pos, neg_ℤ};
ghost use Rattle.c_calls.specs.declared.status.TheConstants.{CLOSED, FAULT, MEMORY, NOT_THERE, OPEN, OTHER_LENGTH, TOO_SHORT};

/// A law, with nothing to run: the statuses are the numbers of `mcf.h`.
pub fn statuses_are()
    ensures closed { CLOSED ≡ neg_ℤ (pos 1) }
    ensures open { OPEN ≡ neg_ℤ (pos 2) }
    ensures other_length { OTHER_LENGTH ≡ neg_ℤ (pos 3) }
    ensures not_there { NOT_THERE ≡ neg_ℤ (pos 4) }
    ensures fault { FAULT ≡ neg_ℤ (pos 5) }
    ensures memory { MEMORY ≡ neg_ℤ (pos 6) }
    ensures too_short { TOO_SHORT ≡ neg_ℤ (pos 7) }
{}
