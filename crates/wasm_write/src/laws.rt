// What follows from the definitions alone.
ghost use Rattle.std.specs.Prelude.{◌≡◌, ◌≤◌, ℕ, List, length, Ok};
ghost use Rattle.wasm_bin.specs.declared.module.Module.{Module};
ghost use Rattle.wasm_bin.specs.Parts.{parts_of};
ghost use Rattle.wasm_bin.specs.Section.{module_in};
ghost use Rattle.wasm_bin.specs.Grammar.{SpellsModule};
ghost use Rattle.wasm_bin.specs.Module.{module_spells};
ghost use Rattle.wasm_write.specs.Written.{module_bytes};
ghost use Rattle.wasm_write.specs.Laws.{IsShortest};
ghost use Rattle.wasm_write.specs.Most.{module_most};

/// Where some bytes spell a module, what is written for it spells it, and no bytes that do are fewer.
#[tactic(auto, using(crate::proofs::Sections::written_shortest))]
pub fn written_modules_are_shortest()
    ensures { (bytes : List ℕ) (m : Module) → module_spells bytes m → IsShortest (SpellsModule (parts_of m)) (module_bytes m) }
{}

/// What is written for a module is read as this module, where some bytes spell it.
#[tactic(auto, using(crate::proofs::Sections::written_read))]
pub fn written_modules_are_read()
    ensures { (bytes : List ℕ) (m : Module) → module_spells bytes m → module_in (module_bytes m) ≡ Ok (parts_of m) }
{}

/// What is written for a module is no longer than a sum over its parts.
#[tactic(auto, using(crate::proofs::Lengths::written_short))]
pub fn written_modules_are_short()
    ensures { (m : Module) → length (module_bytes m) ≤ module_most (parts_of m) }
{}
