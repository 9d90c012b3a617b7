// What follows from the definitions alone.
ghost use Rattle.std.specs.Prelude.{◌≡◌, ℕ, ◌+◌, List};
ghost use Rattle.wasm_bin.specs.declared.module.Module.{Module};
ghost use Rattle.wasm_valid.specs.Context.{Context};
ghost use Rattle.wasm_valid.specs.Nesting.{Code};
ghost use Rattle.wasm_valid.specs.Typing.{HasType};
ghost use Rattle.wasm_valid.specs.Verdict.{HasOneAnswer};

/// Each module is valid or refused, in one way, but for want of memory.
pub fn modules_have_one_answer()
    ensures { (m : Module) → HasOneAnswer m }
{}

/// Typed code keeps what lies beneath the values that it takes.
pub fn code_keeps_what_lies_beneath()
    ensures { (c : Context) (labels : List ℕ) (code : Code) (a b k : ℕ) → HasType c labels code a b → HasType c labels code (a + k) (b + k) }
{}
