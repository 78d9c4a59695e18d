//! The limits of answers, each by its number, so that no definition of a contract moves with a constant.
ghost use Rattle.std.specs.Prelude.{◌≡◌, pos, neg_ℤ};
ghost use Rattle.network.specs.declared.TheConstants.{LEAST_POTENTIAL, RETURN_CAP};

/// A law, with nothing to run: the limits are these numbers.
pub fn limits_are()
    ensures potential { LEAST_POTENTIAL ≡ neg_ℤ (pos 50000000000000000) }
    ensures return_cap { RETURN_CAP ≡ pos 100000000000000 }
{}
