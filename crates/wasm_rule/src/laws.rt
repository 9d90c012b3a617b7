// What holds of the definitions.

ghost use Rattle.std.specs.Prelude.{◌≡◌, ℕ, List};
ghost use Rattle.mach_core.specs.declared.machine.Status.TheVariants.{Going};
ghost use Rattle.mach_core.specs.Rule.{FaultsAreSilent, run};
ghost use Rattle.wasm_bin.specs.declared.module.Module.{Module};
ghost use Rattle.wasm_rule.specs.Refusals.{HasOneAnswer};
ghost use Rattle.wasm_rule.specs.Laws.{BlocksEndWhereTheyClose, OneMainIsShown, RunsStaySmall, StoredWordsAreRead};
ghost use Rattle.wasm_valid.specs.Rules.{IsValid};
ghost use Rattle.wasm_rule.specs.Ready.{IsReady};
ghost use Rattle.wasm_rule.specs.Rule.{wasm_rule};
ghost use Rattle.wasm_rule.specs.Start.{IsLinkable, wasm_start};

/// A step that meets a fault takes nothing and writes nothing.
#[tactic(auto, using(crate::proofs::Silence::silent))]
pub fn faults_are_silent()
    ensures { (m : Module) → FaultsAreSilent (wasm_rule m) }
{}

/// Each module can be run here or is refused, in one way.
pub fn modules_are_linked_or_refused()
    ensures { (m : Module) → HasOneAnswer m }
{}

/// Where typed code goes on behind its blocks is behind their own ends.
pub fn blocks_end_where_they_close()
    ensures { BlocksEndWhereTheyClose }
{}

/// What was stored is read again, and all other bytes stay.
pub fn stored_words_are_read()
    ensures { StoredWordsAreRead }
{}

/// The `main` that a run starts with is one that is exported.
pub fn one_main_is_shown()
    ensures { OneMainIsShown }
{}

/// No run of a module that bytes spell has more than 4096 calls at once, nor more than 1024 pages.
pub fn runs_stay_small()
    ensures { RunsStaySmall }
{}

/// A run of a valid module that goes on has an instruction to execute, with all that it takes: no value, local or global is
/// missing.
pub fn valid_modules_are_ready()
    ensures { (m : Module) → IsValid m → IsLinkable m → (input : List ℕ) (steps : ℕ) → let c = (run (wasm_rule m) (wasm_start m) input steps).config in c.status ≡ Going → IsReady m c }
{}
