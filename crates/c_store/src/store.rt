// The memory of a run.

ghost use Rattle.std.specs.Prelude.{◌≡◌, ◌≤◌, ◌<◌, ◌∷◌, [], length, map, replicate, slice_get, All, OnOk, OnErr, IfErr, IfOk, Ok, Err, List, ℕ};
ghost use Rattle.std.specs.Option.{option_map};
ghost use Rattle.c_store.specs.Values as plain;

use crate::act::Act;
use crate::find::{count_below, find_live, index_at, letter_at, literal_act};
use crate::grow::add_object;
use crate::kind::{Kind, holds_no_other, is_of, read_cell};
use crate::literal::Literal;
use crate::live::Live;
use crate::pointers::{meets_end, same_pointer};
use crate::value::{Cell, Letter, Pointer, Value};
use std::alloc::{AllocError, Global};
use std::marker::Model;

/// The memory of a run: its live objects, the oldest first. Objects are numbered as they are made.
#[derive(Drop)]
pub struct Store {
    objects: Vec<Live>,
    cells: Vec<Cell>,
    next: u64,
}

impl Model for Store {
    ghost use Rattle.c_store.specs.Values.{Stack};

    ghost Value = { Stack };

    ghost use Rattle.c_store.specs.Inside.{stack_of, IsInside};

    ghost view = { stack_of };

    ghost invariant = { IsInside };
}

impl Store {
    ghost use Rattle.c_store.specs.Words.{cell_at, load, stored, entered, entered_all, entered_values, left, is_dead, equal_pointers};
    ghost use Rattle.c_store.specs.Shown.{value_of, cell_of, shown};

    /// No object was made yet.
    pub fn new(alloc: Global) -> Store
        ensures next { result.next ≡ 0 }
        ensures live { result.live ≡ [] }
    {
        Store {
            objects: Vec::new(alloc),
            cells: Vec::new(alloc),
            next: 0,
        }
    }

    /// The number that the next object gets: those of the live ones are below it.
    #[inline(always)]
    pub fn next(&self) -> u64
        ensures next { result ≡ self.now.next }
        ensures below { All (λ x. x.number < result) self.now.live }
    {
        self.next
    }

    /// How many objects live.
    #[inline(always)]
    pub fn count(&self) -> usize
        ensures { result ≡ length self.now.live }
    {
        self.objects.len()
    }

    /// The cell to which a value points.
    #[inline(always)]
    pub fn cell_at(&self, literals: &[Literal], v: Value) -> Option<Cell>
        ensures { option_map cell_of result ≡ cell_at literals.now self.now (value_of v) }
    {
        match v {
            Value::Point(p) => match index_at(&self.objects, p) {
                Some(index) => Some(self.cells[index]),
                None => None,
            },
            Value::Letter(l) => letter_at(literals, l),
            _ => None,
        }
    }

    /// Reads a cell as one of a kind.
    #[inline(always)]
    pub fn load(&self, literals: &[Literal], kind: Kind, p: Value) -> Result<Value, Act>
        ensures { shown result ≡ load literals.now self.now kind (value_of p) }
    {
        match self.cell_at(literals, p) {
            Some(cell) => read_cell(kind, cell),
            None => Err(Act::OutsideObject),
        }
    }

    /// Writes a value to a cell, as one of a kind. An error changes nothing.
    #[inline(always)]
    pub fn store(&mut self, literals: &[Literal], kind: Kind, p: Value, v: Value) -> Result<(), Act>
        ensures ok { OnOk result (stored literals.now self.old kind (value_of p) (value_of v) ≡ Ok self.new) }
        ensures act { IfErr result (λ act. stored literals.now self.old kind (value_of p) (value_of v) ≡ Err act) }
        ensures err { OnErr result (self.new ≡ self.old) }
    {
        match p {
            Value::Point(p) => self.put(kind, p, v),
            Value::Letter(l) => Err(literal_act(literals, kind, l)),
            _ => Err(Act::OutsideObject),
        }
    }

    // Writes a value to a cell of an object.
    #[inline(always)]
    fn put(&mut self, kind: Kind, p: Pointer, v: Value) -> Result<(), Act>
        ensures ok { OnOk result (stored [] self.old kind (value_of (Value.Point p)) (value_of v) ≡ Ok self.new) }
        ensures act { IfErr result (λ act. stored [] self.old kind (value_of (Value.Point p)) (value_of v) ≡ Err act) }
        ensures err { OnErr result (self.new ≡ self.old) }
    {
        match index_at(&self.objects, p) {
            Some(index) => {
                if !holds_no_other(kind, self.cells[index]) {
                    return Err(Act::OtherKind);
                }
                self.cells[index] = Cell::Holds(v);
                Ok(())
            }
            None => Err(Act::OutsideObject),
        }
    }

    // A new object of so many unset cells. An error changes nothing.
    #[inline(always)]
    fn add_unset(&mut self, length: u32) -> Result<(), AllocError>
        ensures ok { OnOk result (self.new ≡ entered (replicate length plain.Unset ∷ []) self.old) }
        ensures err { OnErr result (self.new ≡ self.old) }
    {
        let Some(end) = self.cells.len().checked_add(length as usize) else {
            return Err(AllocError);
        };
        self.cells.resize(end, Cell::Unset)?;
        add_object(&mut self.objects, &mut self.cells, &mut self.next, length)
    }

    // A new object of one cell, which holds a value. An error changes nothing.
    #[inline(always)]
    fn add_value(&mut self, v: Value) -> Result<(), AllocError>
        ensures ok { OnOk result (self.new ≡ entered ((plain.Holds (value_of v) ∷ []) ∷ []) self.old) }
        ensures err { OnErr result (self.new ≡ self.old) }
    {
        self.cells.push(Cell::Holds(v))?;
        add_object(&mut self.objects, &mut self.cells, &mut self.next, 1)
    }

    /// A new object of these cells. An error changes nothing.
    pub fn enter_cells(&mut self, cells: &[Cell]) -> Result<(), AllocError>
        ensures ok { OnOk result (self.new ≡ entered (map cell_of cells.now ∷ []) self.old) }
        ensures err { OnErr result (self.new ≡ self.old) }
    {
        if cells.len() > 4294967295 {
            return Err(AllocError);
        }
        let length = cells.len() as u32;
        self.cells.extend_from_slice(cells)?;
        add_object(&mut self.objects, &mut self.cells, &mut self.next, length)
    }

    // The objects from a number on go, and the next one gets that number.
    fn forget(&mut self, number: u64)
        requires { number ≤ self.old.next }
        ensures { self.new ≡ record (left number self.old) { next = number } }
    {
        self.leave(number);
        self.next = number;
    }

    /// New objects of so many unset cells each. An error changes nothing.
    pub fn enter(&mut self, lengths: &[u32]) -> Result<(), AllocError>
        ensures ok { OnOk result (self.new ≡ entered_all lengths.now self.old) }
        ensures err { OnErr result (self.new ≡ self.old) }
    {
        let number = self.next();
        for length in lengths {
            if let Err(failed) = self.add_unset(*length) {
                self.forget(number);
                return Err(failed);
            }
        }
        Ok(())
    }

    /// New objects of one cell each, which hold these values. An error changes nothing.
    pub fn enter_values(&mut self, values: &[Value]) -> Result<(), AllocError>
        ensures ok { OnOk result (self.new ≡ entered_values (map value_of values.now) self.old) }
        ensures err { OnErr result (self.new ≡ self.old) }
    {
        let number = self.next();
        for value in values {
            if let Err(failed) = self.add_value(*value) {
                self.forget(number);
                return Err(failed);
            }
        }
        Ok(())
    }

    /// The objects from a number on are dead from here.
    #[inline(always)]
    pub fn leave(&mut self, number: u64)
        ensures { self.new ≡ left number self.old }
    {
        let count = count_below(&self.objects, number);
        if count < self.objects.len() {
            let first = self.objects[count].first;
            self.cells.truncate(first);
            self.objects.truncate(count);
        }
    }

    /// Whether a value points to a dead object.
    #[inline(always)]
    fn is_dead(&self, v: Value) -> bool
        ensures { result ≡ is_dead self.now (value_of v) }
    {
        match v {
            Value::Point(p) => find_live(&self.objects, p.object, p.place).is_none(),
            _ => false,
        }
    }

    /// Whether two pointers of a kind are equal.
    pub fn equal_pointers(
        &self,
        literals: &[Literal],
        kind: Kind,
        v: Value,
        w: Value,
    ) -> Result<bool, Act>
        ensures { result ≡ equal_pointers literals.now self.now kind (value_of v) (value_of w) }
    {
        if !is_of(kind, v) || !is_of(kind, w) {
            return Err(Act::OtherKind);
        }
        if self.is_dead(v)
            || self.is_dead(w)
            || meets_end(literals, v, w)
            || meets_end(literals, w, v)
        {
            return Err(Act::PointerEquality);
        }
        Ok(same_pointer(literals, v, w))
    }
}
