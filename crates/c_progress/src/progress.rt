//! How a production that is open goes on at a token.

ghost use Rattle.std.specs.Prelude.{◌≡◌, List, Option};
ghost use Rattle.c_grammar.specs.Values as machine;
ghost use Rattle.c_grammar.specs.Values.{Open};
ghost use Rattle.c_grammar.specs.declared.names.Production.{Production as AProduction};
ghost use Rattle.c_frames.specs.declared.frame.Frame.{Frame as AFrame};
ghost use Rattle.c_progress.specs.Progress.{Reads, Comes};

use c_frames::frame::Frame;

/// How a production that is open goes on.
#[derive(Drop)]
pub enum Progress {
    /// The token was read, at this depth.
    Moved(u32),
    /// The production has all its parts before the token.
    Finished(Frame),
    Stuck,
}

/// What becomes of a production that is open at one of its places.
#[derive(Drop)]
pub enum Turn {
    /// The place stays empty.
    Passed(Frame),
    Ended(Progress),
}

/// The progress where a token was read at this depth, or refused.
pub fn progress_of(read: Option<u32>) -> Progress
    ensures { (p : AProduction) (old fs : List AFrame) (o : Option (List Open)) → Reads read fs o → Comes result p old fs (machine.moved o) }
{
    match read {
        Some(depth) => Progress::Moved(depth),
        None => Progress::Stuck,
    }
}

/// The progress of a production that may not be whole yet.
pub fn unfinished(progress: Progress) -> Progress
    ensures { (p q : AProduction) (old other fs : List AFrame) (r : machine.Progress) → Comes progress p old fs r → Comes result q other fs (machine.unfinished r) }
{
    match progress {
        Progress::Moved(depth) => Progress::Moved(depth),
        Progress::Finished(_) => Progress::Stuck,
        Progress::Stuck => Progress::Stuck,
    }
}
