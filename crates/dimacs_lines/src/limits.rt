//! The limits of lines, each by its number, so that no definition of a contract moves with a constant.

ghost use Rattle.std.specs.Prelude.{◌≡◌};
ghost use Rattle.dimacs_lines.specs.declared.cutter.TheConstants.{LINE_LIMIT};
ghost use Rattle.dimacs_lines.specs.declared.name.TheConstants.{NAME_LIMIT};
ghost use Rattle.dimacs_lines.specs.declared.numbers.TheConstants.{DIGIT_LIMIT, VALUE_DIGIT_LIMIT};

/// A law, with nothing to run: the limits are these numbers.
pub fn limits_are()
    ensures digits { DIGIT_LIMIT ≡ 18 }
    ensures value_digits { VALUE_DIGIT_LIMIT ≡ 30 }
    ensures line { LINE_LIMIT ≡ 1024 }
    ensures name { NAME_LIMIT ≡ 32 }
{}
