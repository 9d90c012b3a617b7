// The laws.
ghost use Rattle.c_tracks.specs.Laws.{PlainStepsTrackCode, PlainRunsTrackCode};
ghost use Rattle.c_tracks.specs.Starts.{PlainStartsAsText};

/// From configurations that go along with one another a step leads to such again; it takes a byte on both sides or on
/// none, and writes the same.
pub fn plain_steps_track_code()
    ensures { PlainStepsTrackCode }
{}

/// After any number of steps the configurations still go along with one another: both are going, have ended or stand at
/// the same fault, and the same was taken and written.
pub fn plain_runs_track_code()
    ensures { PlainRunsTrackCode }
{}

/// Where the opening call leaves a text's code, it leaves the plain program that is the text's.
pub fn plain_starts_as_text()
    ensures { PlainStartsAsText }
{}
