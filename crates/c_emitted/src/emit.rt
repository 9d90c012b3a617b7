// Instructions that are emitted.

ghost use Rattle.std.specs.Prelude.{◌≡◌, ◌+◌, ◌<◌, suc, ◌∷◌, [], length, Option, List, ℕ, IfOk, OnOk};
ghost use Rattle.c_eval.specs.State as run;
ghost use Rattle.c_syntax.specs.Words.{meaning};
ghost use Rattle.c_code.specs.Code as code;
ghost use Rattle.c_resolved.specs.Same.{IsOwner};
ghost use Rattle.c_store.specs.Shown.{value_of};
ghost use Rattle.c_emitted.specs.Tables.{no_tables, IsMeant, IsPushed};
ghost use Rattle.c_emitted.specs.Emits.{tables_of, Emits, AreFiles, Reserves, Fills};

use crate::code::Code;
use crate::emitter::Emitter;
use crate::tables::push_entry;
use c_plain::Instruction;
use c_store::{Letter, Pointer, Value};
use ordered::{OrderedMap, OrderedSet};
use std::alloc::{AllocError, Global};

impl<'t> Emitter<'t> {
    /// Nothing is emitted yet.
    pub fn new(alloc: Global) -> Emitter<'t>
        ensures code { result.code ≡ [] }
        ensures tables { tables_of result ≡ no_tables }
        ensures owner { result.owner ≡ 0 }
        ensures before { result.before ≡ 0 }
        ensures files { result.files.entries ≡ [] }
    {
        Emitter {
            alloc,
            code: Code::new(alloc),
            constants: Vec::new(alloc),
            kinds: Vec::new(alloc),
            lengths: Vec::new(alloc),
            bytes: Vec::new(alloc),
            literals: Vec::new(alloc),
            names: OrderedSet::new(alloc),
            objects: Vec::new(alloc),
            files: OrderedMap::new(alloc),
            owner: 0,
            before: 0,
        }
    }

    /// An instruction more.
    pub fn add(&mut self, instruction: Instruction) -> Result<(), AllocError>
        ensures { (i : code.Instruction) → IsMeant (tables_of self.old) i instruction → OnOk result (Emits self.old self.new (i ∷ []) []) }
    {
        self.code.push(instruction)
    }

    /// An instruction that pushes a constant.
    pub fn constant(&mut self, value: Value) -> Result<(), AllocError>
        ensures { (i : code.Instruction) → IsPushed (tables_of self.old) i (value_of value) → OnOk result (Emits self.old self.new (i ∷ []) []) }
    {
        let number = push_entry(&mut self.constants, value)?;
        self.code.push(Instruction::Push(number))
    }

    /// An instruction that pushes null.
    pub fn null(&mut self) -> Result<(), AllocError>
        ensures { OnOk result (Emits self.old self.new (code.Push run.Null ∷ []) []) }
    {
        self.constant(Value::Null)
    }

    /// One that pushes no value.
    pub fn missing(&mut self) -> Result<(), AllocError>
        ensures { OnOk result (Emits self.old self.new (code.Push run.Missing ∷ []) []) }
    {
        self.constant(Value::Missing)
    }

    /// One that pushes the function of a name.
    pub fn function(&mut self, name: &'t [u8]) -> Result<(), AllocError>
        ensures { OnOk result (Emits self.old self.new (code.Push (run.Function name.now) ∷ []) []) }
    {
        let number = self.name_number(name)?;
        self.constant(Value::Function(number))
    }

    /// One that pushes the next string literal.
    pub fn letter(&mut self, text: &[u8]) -> Result<(), AllocError>
        ensures { (owner : Option (List ℕ)) → IsOwner (tables_of self.old).names owner self.old.owner → OnOk result (Emits self.old self.new (code.Push (run.Letter owner self.old.before text.now 0) ∷ []) (text.now ∷ [])) }
    {
        let literal = self.literal(text)?;
        self.constant(Value::Letter(Letter { literal, offset: 0 }))
    }

    /// One that pushes a pointer to the object of file scope that has a name.
    pub fn file(&mut self, name: &[u8]) -> Result<(), AllocError>
        ensures { (names : List (List ℕ × Option ℕ)) → AreFiles self.old names → OnOk result (Emits self.old self.new (code.object_code None (meaning names name.now) ∷ []) []) }
    {
        match self.files.get(&name).copied() {
            Some(file) => self.constant(Value::Point(Pointer {
                object: u64::from(file.object),
                place: file.object as usize,
                length: file.length,
                offset: 0,
            })),
            None => self.add(Instruction::Nowhere),
        }
    }

    /// The place of an instruction that is told later.
    pub fn reserve(&mut self) -> Result<u32, AllocError>
        ensures { IfOk result (λ at. Reserves self.old self.new at) }
    {
        let at = self.code.count();
        self.code.push(Instruction::End)?;
        Ok(at)
    }

    /// The instruction of such a place.
    pub fn fill(&mut self, at: u32, instruction: Instruction)
        requires { at < length self.old.code }
        ensures { Fills self.old self.new at instruction }
    {
        self.code.replace(at, instruction);
    }

    /// How many instructions stand behind one.
    pub fn behind(&self, at: u32) -> u32
        requires { at < length self.now.code }
        ensures { result + suc at ≡ length self.now.code }
    {
        self.code.count() - at - 1
    }
}
