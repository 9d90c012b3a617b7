// What follows from the definitions alone.
ghost use Rattle.std.specs.Prelude.{◌≡◌, ◌≢◌, ◌⊎◌, ℕ, List, length, Ok};
ghost use Rattle.wasm_bytes.specs.declared.fault.ModFault.{ModFault};
ghost use Rattle.wasm_bytes.specs.declared.fault.ModFault.TheVariants.{Memory};
ghost use Rattle.wasm_bin.specs.declared.module.Module.{Module};
ghost use Rattle.wasm_bin.specs.Parts.{Parts};
ghost use Rattle.wasm_bin.specs.Section.{module_in};
ghost use Rattle.wasm_bin.specs.Grammar.{ModuleSpells};
ghost use Rattle.wasm_bin.specs.Limits.{KeepsLimits};
ghost use Rattle.wasm_bin.specs.Module.{module_spells, IsRefusedFor, IsFaultWithin};

/// Reading from left to right gives the parts that the bytes spell by the grammar, and nothing else.
pub fn modules_are_spelled()
    ensures { (bytes : List ℕ) (parts : Parts) → (module_in bytes ≡ Ok parts → ModuleSpells bytes parts) × (ModuleSpells bytes parts → module_in bytes ≡ Ok parts) }
{}

/// No bytes spell two modules.
pub fn modules_are_spelled_in_one_way()
    ensures { (bytes : List ℕ) (a b : Module) → module_spells bytes a → module_spells bytes b → a ≡ b }
{}

/// All bytes spell a module or are refused, and never both, and they are refused in one way, want of memory apart.
pub fn modules_have_one_answer()
    ensures some { (bytes : List ℕ) → ((m : Module) × module_spells bytes m) ⊎ ((fault : ModFault) × (fault ≢ Memory) × IsRefusedFor bytes fault) }
    ensures apart { (bytes : List ℕ) (m : Module) (fault : ModFault) → module_spells bytes m → IsRefusedFor bytes fault → fault ≡ Memory }
    ensures once { (bytes : List ℕ) (a b : ModFault) → IsRefusedFor bytes a → IsRefusedFor bytes b → a ≢ Memory → b ≢ Memory → a ≡ b }
{}

/// A refusal names a place in the file, or its end where a byte is wanted or doesn't fit; want of memory names none.
#[tactic(auto, using(crate::proofs::Faults::faults_within))]
pub fn faults_lie_within()
    ensures { (bytes : List ℕ) (fault : ModFault) → fault ≢ Memory → IsRefusedFor bytes fault → IsFaultWithin (length bytes) fault }
{}

/// A module that bytes spell keeps the limits of the format.
#[tactic(auto, using(crate::proofs::Kept::kept))]
pub fn modules_keep_limits()
    ensures { (bytes : List ℕ) (m : Module) → module_spells bytes m → KeepsLimits m }
{}
