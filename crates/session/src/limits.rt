//! The limit of marks by its number, so that no definition of a contract moves with a constant.

ghost use Rattle.std.specs.Prelude.{◌≡◌};
ghost use Rattle.session.specs.declared.marks.TheConstants.{MARK_LIMIT};

/// A law, with nothing to run: the limit is this number.
pub fn limits_are()
    ensures { MARK_LIMIT ≡ 16 }
{}
