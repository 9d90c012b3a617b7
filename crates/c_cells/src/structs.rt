// The kinds of structs.

ghost use Rattle.std.specs.Prelude.{◌≡◌, [], ◌∷◌, ◌++◌, ℕ, List, Some, slice_get, OnOk};
ghost use Rattle.c_types.specs.Types as ctype;
ghost use Rattle.c_types.specs.Types.{CType, Tags};
ghost use Rattle.c_types.specs.Table.{Table};
ghost use Rattle.c_declared.specs.Held.{AreDistinct};
ghost use Rattle.c_cells.specs.Structs.{AreStructKinds, row_at, HasMembers, HasSomeMembers};

use crate::left::add_left;
use c_declared::Slots;
use c_layouts::Layout;
use c_store::Kind;
use c_types::Types;
use ordered::OrderedMap;
use std::alloc::{AllocError, Global};

/// The kinds of the cells of each struct whose members are closed, by the number of its tag.
pub struct StructKinds {
    pub alloc: Global,
    pub rows: OrderedMap<usize, Vec<Kind>>,
}

impl Drop for StructKinds {
    fn drop(self) {
        let StructKinds { alloc: _, rows } = self;
        drop(rows);
    }
}

impl StructKinds {
    /// No struct is declared yet.
    pub fn new(alloc: Global) -> StructKinds
        ensures { (table : Table) → AreStructKinds table result [] }
    {
        StructKinds {
            alloc,
            rows: OrderedMap::new(alloc),
        }
    }

    // The kinds of the struct whose tag has this number, behind others.
    pub fn add_row(&self, tag: usize, kinds: &mut Vec<Kind>) -> Result<(), AllocError>
        ensures { OnOk result (kinds.new.items ≡ kinds.old.items ++ row_at self.now tag) }
    {
        match self.rows.get(&tag) {
            Some(row) => {
                kinds.extend_from_slice(row.as_slice())?;
                Ok(())
            }
            None => Ok(()),
        }
    }

    /// The members of the tag with this number are closed: the kinds of its struct are known from now on.
    pub fn close(
        &mut self,
        types: &Types<'_>,
        layouts: &[Layout<'_>],
        tag: usize,
    ) -> Result<(), AllocError>
        requires { HasSomeMembers types.now layouts.now tag }
        ensures { (name : List ℕ) (members : List (List ℕ × CType)) (words : ℕ) (tags : Tags) → AreDistinct types.now.tags → slice_get types.now.tags tag ≡ Some name → HasMembers types.now layouts.now tag members → AreStructKinds types.now self.old tags → OnOk result (AreStructKinds types.now self.new ((name, ctype.Members members words) ∷ tags)) }
    {
        let mut row = Vec::new(self.alloc);
        add_left(types, layouts, self, Slots::Members(tag), 0, &mut row)?;
        self.rows.insert(tag, row)?;
        Ok(())
    }
}
