//! What holds of texts.

ghost use Rattle.std.specs.Prelude.{ℕ, List};
ghost use Rattle.c_source.specs.Source.{IsDecided};

/// Each text spells one typed tree, or is refused for one reason that lies in it, and never both.
pub fn texts_are_decided()
    ensures { (text : List ℕ) → IsDecided text }
{}
