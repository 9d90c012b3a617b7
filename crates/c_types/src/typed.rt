//! Typed trees.

ghost use Rattle.std.specs.Prelude.{◌≡◌};
ghost use Rattle.c_syntax.specs.View.{unit_of};
ghost use Rattle.c_types.specs.Limits.{IsTyped, weight_of, IsWeighed};

use c_syntax::tree::Unit;

/// A tree that is typed, with its weight: the number of its nodes and the words of its initialised objects and of
/// its string literals.
#[derive(Drop)]
pub struct Typed {
    tree: Unit,
    weight: u32,
    pub ghost weighed: { IsWeighed (unit_of tree) weight },
}

impl Typed {
    ghost use Rattle.c_types.specs.Typed.{plain_of, weight_in};

    /// The value of a typed tree and its weight, which is of any size. It takes no memory.
    pub fn of(unit: Unit, weight: u32) -> Typed
        requires typed { IsTyped (unit_of unit) }
        requires weight { weight ≡ weight_of (unit_of unit) }
        ensures unit { plain_of result ≡ unit_of unit }
        ensures weight { weight_in result ≡ weight }
    {
        Typed { tree: unit, weight }
    }

    /// The tree.
    pub fn unit(&self) -> &Unit
        ensures unit { unit_of result.now ≡ plain_of self.now }
        ensures typed { IsTyped (plain_of self.now) }
    {
        &self.tree
    }

    /// The weight.
    pub fn weight(&self) -> u32
        ensures weight { result ≡ weight_in self.now }
        ensures own { result ≡ weight_of (plain_of self.now) }
    {
        self.weight
    }
}
