//! What holds of each run of a text within the limits.

ghost use Rattle.c_valid.specs.Laws.{RunsStayValid};

/// Words stay below 2^24, and offsets within what an object can have.
pub fn runs_stay_valid()
    ensures { RunsStayValid }
{}
