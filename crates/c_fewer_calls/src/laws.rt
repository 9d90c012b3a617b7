//! What calls and runs of a text with fewer operators do.

ghost use Rattle.c_fewer_calls.specs.Laws.{CallsAreKept, RunsAreKept};
ghost use Rattle.c_fewer_calls.specs.FewerHelpsLaws.{HelpersDo};

/// Calls do what they did, and no pointer to a function that isn't reached comes up.
pub fn calls_are_kept()
    ensures { CallsAreKept }
{}

/// A whole run is what it was, with each amount of fuel.
pub fn runs_are_kept()
    ensures { RunsAreKept }
{}

/// A helper function that is kept, with those that it calls, does what its operator does.
pub fn helpers_do()
    ensures { HelpersDo }
{}
