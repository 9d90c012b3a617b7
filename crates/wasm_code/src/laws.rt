// What follows from the definitions alone.
ghost use Rattle.wasm_code.specs.Laws.{ModulesAreValid, ModulesAreLinkable, ModulesAreSpelled};

/// The module of each program is valid.
pub fn modules_are_valid()
    ensures { ModulesAreValid }
{}

/// The module of each program that is not too large can be run where there is a `getchar` and a `putchar`.
#[tactic(auto, using(crate::proofs::Linked::linkable))]
pub fn modules_are_linkable()
    ensures { ModulesAreLinkable }
{}

/// The module of each program that is not too large is spelled by some bytes, which are not too many.
#[tactic(auto, using(crate::proofs::Rows::spelled))]
pub fn modules_are_spelled()
    ensures { ModulesAreSpelled }
{}
