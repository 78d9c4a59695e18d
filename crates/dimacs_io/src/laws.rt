//! What calls on a sink do, one after the other, to what it holds.

ghost use Rattle.std.specs.Prelude.{List, ℕ, ◌++◌, Option, Result};
ghost use Rattle.std.specs.Io.KnownBytes.{Appends, Keeps};
ghost use Rattle.dimacs_io.specs.Device.{AppendsBeginning, WritesUpTo};
ghost use Rattle.dimacs_io.specs.declared.device.Broken.{Broken};

/// A law, with nothing to run: writes that follow one another write what both write.
pub fn writes_follow()
    ensures both { (result : Result (Unit {0}) Broken) (old between new : Option (List ℕ))
        (first second : List ℕ)
        → Appends old between first → WritesUpTo result between new second
        → WritesUpTo result old new (first ++ second) }
    ensures stopped { (old between new : Option (List ℕ)) (first second : List ℕ)
        → Appends old between first → AppendsBeginning between new second
        → AppendsBeginning old new (first ++ second) }
    ensures beginning { (old new : Option (List ℕ)) (first second : List ℕ)
        → AppendsBeginning old new first → AppendsBeginning old new (first ++ second) }
    ensures kept { (result : Result (Unit {0}) Broken) (old between new : Option (List ℕ))
        (bytes : List ℕ)
        → Appends old between bytes → Keeps between new → WritesUpTo result old new bytes }
{}
