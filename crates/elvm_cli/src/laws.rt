// Laws of what is asked for, as the clauses of functions that do nothing.
ghost use Rattle.std.specs.Prelude.{◌≡◌, ◌≤◌, ℕ, List};
ghost use Rattle.std.specs.declared.option.Option.{Option};
ghost use Rattle.mach_core.specs.Outside.{Texts};
ghost use Rattle.eir_core.specs.Eir.{size_of};
ghost use Rattle.c_syntax.specs.Plain.{CUnit};
ghost use Rattle.c_types.specs.Room.{room_of};
ghost use Rattle.c_valid.specs.Valid.{AreBytes};
ghost use Rattle.c_compiled.specs.Compiled.{compiled};
ghost use Rattle.c_compiled.specs.Texts.{IsCompiledText};
ghost use Rattle.elvm_words.specs.Invocation.{Invocation};
ghost use Rattle.elvm_words.specs.declared.request.Target.{Target};
ghost use Rattle.elvm_cli.specs.Sources.{CSpells};
ghost use Rattle.elvm_cli.specs.Targets.{RunsInTime, StandsIn, emitted_in};
ghost use Rattle.elvm_cli.specs.Exact.{Allows};

use c_compiled::texts_are_compiled;

/// On given texts and a given input what is asked for allows one status, and one only.
pub fn one_status_is_allowed()
    ensures some { (asked : Option Invocation) (texts : Texts) (i : List ℕ) → (status : ℕ) × Allows asked texts i status }
    ensures once { (asked : Option Invocation) (texts : Texts) (i : List ℕ) (a b : ℕ)
        → Allows asked texts i a → Allows asked texts i b → a ≡ b }
{}

/// The program to which a C text is compiled has at most the room of its typed tree, so it is built for each target whose limit isn't below that.
pub fn compiled_programs_fit_their_room()
    ensures { (text : List ℕ) (u : CUnit) → AreBytes text → CSpells text u → size_of (compiled u) ≤ room_of u }
{
    texts_are_compiled();
}

/// What is built of a C text runs as its typed tree, and has ended after a number of steps where that ends.
pub fn built_texts_run_in_time()
    ensures { (target : Target) (u : CUnit) (text : List ℕ) → IsCompiledText u → size_of (compiled u) ≤ (emitted_in target).limit
        → StandsIn target (compiled u) text → RunsInTime target u text }
{}
