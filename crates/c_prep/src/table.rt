//! Macros by their names.

ghost use Rattle.std.specs.Prelude.{◌≡◌, ◌≤◌, ◌+◌, OnOk, IfSome, IfNone};
ghost use Rattle.std.specs.Option.{option_map};
ghost use Rattle.c_prep.specs.Macros.{kinds, no_macros, keep, without};

use c_syntax::Raw;
use std::alloc::{AllocError, Global};
use std::collections::HashMap;

/// The tokens that are kept under names.
#[derive(Drop)]
pub struct Table<'t> {
    pub bodies: HashMap<&'t [u8], &'t [Raw]>,
}

ghost use Rattle.c_prep.specs.Views.{macros_of, size_of};

impl<'t> Table<'t> {
    /// No macros.
    #[tactic(auto, using(crate::proofs::Naming::none_kept), unfolding(crate::specs::Views::size_of))]
    pub fn new(alloc: Global) -> Table<'t>
        ensures macros { macros_of result ≡ no_macros }
        ensures size { size_of result ≡ 0 }
    {
        Table {
            bodies: HashMap::new(alloc),
        }
    }

    /// The tokens that are kept under a name.
    #[tactic(auto, unfolding(crate::specs::Views::macros_of))]
    pub fn get(&self, name: &[u8]) -> Option<&'t [Raw]>
        ensures { option_map (λ b. kinds b.now) result ≡ macros_of self.now name.now }
    {
        self.bodies.get(&name).copied()
    }

    /// Drops a name, and answers its tokens.
    #[tactic(auto, unfolding(crate::specs::Views::macros_of, crate::specs::Views::size_of))]
    pub fn remove(&mut self, name: &'t [u8]) -> Option<&'t [Raw]>
        ensures value { option_map (λ b. kinds b.now) result ≡ macros_of self.old name.now }
        ensures macros { macros_of self.new ≡ without name.now (macros_of self.old) }
        ensures size { size_of self.new ≤ size_of self.old }
        ensures smaller { IfSome result (λ b. size_of self.new + 1 ≡ size_of self.old) }
        ensures same { IfNone result (size_of self.new ≡ size_of self.old) }
    {
        self.bodies.remove(&name)
    }

    /// Keeps tokens under a name.
    #[tactic(auto, unfolding(crate::specs::Views::size_of))]
    pub fn keep(&mut self, name: &'t [u8], tokens: &'t [Raw]) -> Result<(), AllocError>
        ensures macros { OnOk result (macros_of self.new ≡ keep name.now (kinds tokens.now) (macros_of self.old)) }
        ensures size { OnOk result (size_of self.new ≤ size_of self.old + 1) }
    {
        self.bodies.insert(name, tokens)?;
        Ok(())
    }
}
