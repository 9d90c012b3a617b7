// The members of tags.

ghost use Rattle.std.specs.Prelude.{◌≡◌, List, Option};
ghost use Rattle.c_types.specs.Types as types;
ghost use Rattle.c_types.specs.Types.{layout_words, is_finished};
ghost use Rattle.c_types.specs.Seen.{Counts};
ghost use Rattle.c_types.specs.Known.{Known};

use c_types::Words;
use ordered::OrderedMap;

/// What is known of the members of a tag.
#[derive(Drop)]
pub enum Layout<'t> {
    /// The tag has no declaration yet.
    Undeclared,
    /// Its members are being declared.
    Unfinished,
    /// Its members in their order, with the numbers of their types, and how many words they take.
    Members(OrderedMap<&'t [u8], usize>, Words),
}

impl<'t> Layout<'t> {
    ghost use Rattle.c_layouts.specs.Layouts.{LayoutIs};

    // How many words the members take.
    pub fn words(&self) -> Words
        ensures { (all : List Known) (o : Option types.Layout) → LayoutIs all self.now o → Counts result (layout_words o) }
    {
        match self {
            Layout::Members(_, words) => *words,
            _ => Words::of(0),
        }
    }

    // Whether the members are closed.
    pub fn is_finished(&self) -> bool
        ensures { (all : List Known) (o : Option types.Layout) → LayoutIs all self.now o → result ≡ is_finished o }
    {
        matches!(self, Layout::Members(_, _))
    }
}
