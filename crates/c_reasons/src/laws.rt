//! What holds of the refusals of texts.

ghost use Rattle.c_reasons.specs.Laws.{UnitsHaveReasons};

/// A tree of C that isn't typed within the limits is refused for a reason that lies in it.
pub fn typed_units_have_reasons()
    ensures { UnitsHaveReasons }
{}
