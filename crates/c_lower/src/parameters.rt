// The names and the places of a function's parameters.

ghost use Rattle.std.specs.Prelude.{◌≡◌, ◌≤◌, ◌+◌, ◌-◌, ◌++◌, length, map, IfOk, OnOk};
ghost use Rattle.c_syntax.specs.View.{decls_of};
ghost use Rattle.c_counted.specs.Numbers.{IsNumber};
ghost use Rattle.c_lower.specs.Parameters.{numbered, PlacesWords, KnowsParameters};

use c_addressing::Here;
use c_counted::next;
use c_emission::Location;
use c_scopes::{Entity, Names};
use c_syntax::tree::Decl;
use std::alloc::AllocError;

/// Parameters that are known: what ends their names again, and the first word of the frame behind them.
#[derive(Clone, Copy)]
pub struct Entered {
    pub names: usize,
    pub free: u32,
}

// So many places more, which are words of a frame from its second on; and the word behind them.
fn place_parameters(bases: &mut Vec<Location>, count: usize) -> Result<u32, AllocError>
    ensures places { OnOk result (PlacesWords bases.old.items bases.new.items count) }
    ensures free { IfOk result (λ n. IsNumber n (1 + count)) }
{
    let mut place = 1;
    for _index in 0..count {
        bases.push(Location::Framed(place))?;
        place = next(place);
    }
    Ok(place)
}

// Parameters get their numbers, one behind the other up to one.
fn number_parameters<'t>(
    slots: &mut Names<'t>,
    parameters: &'t [Decl],
    end: usize,
) -> Result<(), AllocError>
    requires { length parameters.now ≤ end }
    ensures block { OnOk result (slots.new.block ≡ numbered parameters.now (end - length parameters.now) ++ slots.old.block) }
    ensures outer { OnOk result (slots.new.outer ≡ slots.old.outer) }
{
    for step in 0..parameters.len() {
        let index = parameters.len() - 1 - step;
        let number = end - 1 - step;
        let parameter = &parameters[index];
        slots.declare(parameter.name.as_bytes(), Entity::Object(number))?;
    }
    Ok(())
}

/// The parameters of a function are known from now on: their names have numbers behind those before, and they lie behind
/// the frame's first word, one word each.
pub fn enter_parameters<'t>(
    here: &mut Here<'t>,
    parameters: &'t [Decl],
) -> Result<Entered, AllocError>
    ensures knows { OnOk result (KnowsParameters here.old here.new (map (λ d. d.name) (decls_of parameters.now))) }
    ensures names { IfOk result (λ e. e.names ≡ length here.old.slots.outer) }
    ensures free { IfOk result (λ e. IsNumber e.free (1 + length parameters.now)) }
{
    let names = here.slots.enter();
    let free = place_parameters(&mut here.bases, parameters.len())?;
    let end = here.bases.len();
    number_parameters(&mut here.slots, parameters, end)?;
    Ok(Entered { names, free })
}
