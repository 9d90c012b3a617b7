// Arguments that are judged one after the other.

ghost use Rattle.std.specs.Prelude.{◌≡◌, ◌∷◌, [], Ok, None, List, IfOk, OnOk};
ghost use Rattle.c_types.specs.Refusals as refusals;
ghost use Rattle.c_types.specs.Operands as plain;
ghost use Rattle.c_types.specs.Table.{Table, known};
ghost use Rattle.c_types.specs.Known.{Grows};
ghost use Rattle.c_operands.specs.Seen.{IsOperand, IsJudged};
ghost use Rattle.c_operands.specs.Arguments.{merged};
ghost use Rattle.c_forms.specs.Forms.{IsSomeOperand};
ghost use Rattle.c_expressions.specs.Told.{behind, AreSoFar, AreGiven};

use c_operands::{Argument, Judged, Operand, merged, value_of};
use c_types::{TypeFault, Types};
use std::alloc::{AllocError, Global};

/// The arguments so far, and the refusal that is told of those that are refused.
#[derive(Drop)]
pub struct Collected {
    pub refusal: Option<TypeFault>,
    pub arguments: Vec<Argument>,
}

impl Collected {
    /// No arguments yet.
    pub fn new(alloc: Global) -> Collected
        ensures refusal { result.refusal ≡ None }
        ensures arguments { result.arguments.items ≡ [] }
    {
        Collected {
            refusal: None,
            arguments: Vec::new(alloc),
        }
    }

    /// An argument more.
    pub fn add(
        &mut self,
        types: &mut Types<'_>,
        argument: Judged<Operand>,
    ) -> Result<(), AllocError>
        requires { IsSomeOperand types.old argument }
        ensures added { (p : refusals.Judged plain.Operand) (xs : List plain.Operand) → IsJudged (IsOperand types.old) argument p → AreSoFar types.old self.old.refusal self.old.arguments.items xs → OnOk result ((ys : List plain.Operand) × AreSoFar types.new self.new.refusal self.new.arguments.items ys × ((others : refusals.Judged (List plain.Operand)) → behind self.old.refusal xs (refusals.both p others (λ x rest. Ok (x ∷ rest))) ≡ behind self.new.refusal ys others)) }
        ensures grows { OnOk result (Grows (known types.old) (known types.new)) }
        ensures tags { OnOk result (types.new.tags ≡ types.old.tags) }
    {
        match argument {
            Ok(a) => {
                let value = value_of(types, a)?;
                self.arguments.push(Argument { at: a.at, value })?;
                Ok(())
            }
            Err(fault) => {
                self.refusal = merged(self.refusal, Some(fault));
                Ok(())
            }
        }
    }

    /// All of them, or the refusal that is told.
    pub fn judged(self) -> Judged<Vec<Argument>>
        ensures { (table : Table) (xs : List plain.Operand) → AreSoFar table self.refusal self.arguments.items xs → IsJudged (AreGiven table) result (behind self.refusal xs (Ok [])) }
    {
        let Collected { refusal, arguments } = self;
        match refusal {
            None => Ok(arguments),
            Some(fault) => Err(fault),
        }
    }
}
