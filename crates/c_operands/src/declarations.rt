// What is declared where something stands.

use c_layouts::Layout;
use c_scopes::Names;
use ordered::OrderedSet;
use std::alloc::Global;

/// What is declared where something stands: the members of the tags by their numbers, the names in scope, and the
/// functions that the whole text defines; and where memory is taken from.
pub struct Declarations<'t> {
    pub alloc: Global,
    pub layouts: Vec<Layout<'t>>,
    pub names: Names<'t>,
    pub defined: OrderedSet<&'t [u8]>,
}

impl<'t> Drop for Declarations<'t> {
    fn drop(self) {
        let Declarations {
            alloc: _,
            layouts,
            names,
            defined,
        } = self;
        drop(layouts);
        drop(names);
        drop(defined);
    }
}
