//! The limits of the texts, each by its number, so that no definition of a contract moves with a constant.

ghost use Rattle.std.specs.Prelude.{◌≡◌, pos};
ghost use Rattle.dimacs_lines.specs.declared.cutter.TheConstants.{LINE_LIMIT};
ghost use Rattle.dimacs_text.specs.declared.group.TheConstants.{GROUP_LIMIT};
ghost use Rattle.dimacs_lines.specs.declared.name.TheConstants.{NAME_LIMIT};
ghost use Rattle.dimacs_lines.specs.declared.numbers.TheConstants.{DIGIT_LIMIT, VALUE_DIGIT_LIMIT};
ghost use Rattle.dimacs_text.specs.declared.problem.TheConstants.{NODE_LIMIT, ARC_LIMIT, CAP_LIMIT, COST_LIMIT, SUPPLY_LIMIT};

/// A law, with nothing to run: the limits are these numbers.
pub fn limits_are()
    ensures nodes { NODE_LIMIT ≡ 50000 }
    ensures arcs { ARC_LIMIT ≡ 100000 }
    ensures cap { CAP_LIMIT ≡ 1000000000 }
    ensures cost { COST_LIMIT ≡ pos 1000000000000 }
    ensures supply { SUPPLY_LIMIT ≡ pos 1000000000 }
    ensures digits { DIGIT_LIMIT ≡ 18 }
    ensures value_digits { VALUE_DIGIT_LIMIT ≡ 30 }
    ensures line { LINE_LIMIT ≡ 1024 }
    ensures group { GROUP_LIMIT ≡ 1000 }
    ensures name { NAME_LIMIT ≡ 32 }
{}
