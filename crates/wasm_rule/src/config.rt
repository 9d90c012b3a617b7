// What a module is at, as the step rule sees it.

use std::marker::Model;

/// The type of the configurations of the step rule: their calls hold the instructions that come next. A machine holds
/// its calls in another form, so no value of this type is ever built.
#[derive(Drop)]
pub struct WasmConfig {}

impl Model for WasmConfig {
    ghost use Rattle.std.specs.Prelude.{[]};
    ghost use Rattle.std.specs.FinMap as map;
    ghost use Rattle.mach_core.specs.declared.machine.Status.TheVariants.{Ended};
    ghost use Rattle.wasm_rule.specs.Config.{Config};

    ghost Value = { Config };

    ghost use Rattle.std.specs.Coded.{codes};
    ghost use Rattle.wasm_rule.specs.Codes.{memory_code};

    ghost coded = { Prim.hlevel (codes, memory_code) };

    ghost view = { λ _. record { globals = []; memory = record { pages = 0; bytes = map.empty }; calls = []; later = []; status = Ended } };
}
