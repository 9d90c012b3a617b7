// The table of types.

ghost use Rattle.std.specs.Prelude.{◌≡◌, ◌≢◌, ◌<◌, ℕ, [], length, IsSome, IfOk, OnOk, OnErr, MatchOption, Some, slice_get};
ghost use Rattle.c_types.specs.Types.{CType, same_type};
ghost use Rattle.c_types.specs.Known.{OneType, says, Grows};

use crate::laws::equal_types_are_one;
use crate::shape::Shape;
use ordered::OrderedSet;
use std::alloc::{AllocError, Global};
use std::marker::Model;

/// Types and lists of types, each with a number. What has a number keeps it.
pub struct Types<'t> {
    tags: OrderedSet<&'t [u8]>,
    shapes: OrderedSet<Shape>,
}

impl<'t> Drop for Types<'t> {
    fn drop(self) {
        let Types { tags, shapes } = self;
        drop(tags);
        drop(shapes);
    }
}

impl<'t> Model for Types<'t> {
    ghost use Rattle.c_types.specs.Table.{Table, table_of, IsMade};

    ghost Value = { Table };

    ghost view = { λ t. table_of t.tags.keys t.shapes.keys };

    ghost invariant = { λ t. IsMade t.tags.keys t.shapes.keys };
}

impl<'t> Types<'t> {
    ghost use Rattle.c_types.specs.Table.{texts, known, PartsBelow};

    /// No types yet, over the tags that a text declares.
    pub fn new(alloc: Global, tags: OrderedSet<&'t [u8]>) -> Types<'t>
        ensures tags { result.tags ≡ texts tags.entry.keys }
        ensures shapes { result.shapes ≡ [] }
    {
        let _count = tags.len();
        Types {
            tags,
            shapes: OrderedSet::new(alloc),
        }
    }

    /// The number of a tag, if there is such a tag.
    pub fn tag(&self, name: &[u8]) -> Option<usize>
        ensures { MatchOption result ((n : ℕ) → slice_get self.now.tags n ≢ Some name.now) (λ n. slice_get self.now.tags n ≡ Some name.now) }
    {
        self.tags.get_index_of(&name)
    }

    /// The number of what has this shape.
    pub fn number(&mut self, shape: Shape) -> Result<usize, AllocError>
        requires { IsSome (says self.old.tags (known self.old) shape) }
        ensures number { IfOk result (λ n. slice_get (known self.new) n ≡ says self.old.tags (known self.old) shape) }
        ensures grows { OnOk result (Grows (known self.old) (known self.new)) }
        ensures tags { OnOk result (self.new.tags ≡ self.old.tags) }
        ensures err { OnErr result (self.new ≡ self.old) }
    {
        let (number, _) = self.shapes.insert_full(shape)?;
        Ok(number)
    }

    /// The shape of what has this number.
    pub fn shape(&self, number: usize) -> Shape
        requires { number < length (known self.now) }
        ensures says { says self.now.tags (known self.now) result ≡ slice_get (known self.now) number }
        ensures below { PartsBelow result number }
    {
        self.shapes.as_slice()[number]
    }

    /// Whether two numbers are those of equal types.
    pub fn is_same(&self, a: usize, b: usize) -> bool
        ensures { (t u : CType) → slice_get (known self.now) a ≡ Some (OneType t) → slice_get (known self.now) b ≡ Some (OneType u) → result ≡ same_type t u }
    {
        equal_types_are_one();
        let _shapes = &self.shapes;
        a == b
    }
}
