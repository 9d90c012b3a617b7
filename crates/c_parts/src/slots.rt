// The slots of names: those of the function that runs, behind those of its callers.

ghost use Rattle.std.specs.Prelude.{◌≡◌, ◌∷◌, ◌++◌, [], length, map, take, drop, slice_get, replicate, OnOk, OnErr};
ghost use Rattle.std.specs.Option.{option_map};
ghost use Rattle.c_store.specs.Values.{Missing};
ghost use Rattle.c_store.specs.Shown.{value_of};
ghost use Rattle.c_plain.specs.Calls.{pointers_from};

use c_store::{Pointer, Value};
use std::alloc::{AllocError, Global};
use std::marker::Model;

/// Slots, each with the pointer to its object, or with no value: those of the function that runs, behind those of its callers.
#[derive(Drop)]
pub struct Slots {
    items: Vec<Value>,
    base: usize,
}

impl Model for Slots {
    ghost use Rattle.std.specs.Prelude.{◌≤◌, vec_len};
    ghost use Rattle.c_plain.specs.Machine.{Piled};

    ghost Value = { Piled };

    ghost use Rattle.c_parts.specs.Piles.{slots_of};

    ghost view = { λ s. slots_of s.base s.items.items };

    ghost invariant = { λ s. s.base ≤ vec_len s.items };
}

impl Slots {
    /// No slots.
    pub fn new(alloc: Global) -> Slots
        ensures mine { result.mine ≡ [] }
        ensures below { result.below ≡ [] }
    {
        Slots {
            items: Vec::new(alloc),
            base: 0,
        }
    }

    /// What stands in a slot.
    #[inline(always)]
    pub fn get(&self, slot: u32) -> Option<Value>
        ensures { option_map value_of result ≡ slice_get self.now.mine slot }
    {
        self.items[self.base..].get(slot as usize).copied()
    }

    /// How many slots the function has.
    #[inline(always)]
    pub fn count(&self) -> usize
        ensures { result ≡ length self.now.mine }
    {
        self.items.len() - self.base
    }

    // One slot more. An error changes nothing.
    #[inline(always)]
    fn add(&mut self, v: Value) -> Result<(), AllocError>
        ensures ok { OnOk result (self.new ≡ record self.old { mine = self.old.mine ++ value_of v ∷ [] }) }
        ensures err { OnErr result (self.new ≡ self.old) }
    {
        self.items.push(v)?;
        Ok(())
    }

    /// Keeps so many slots of the function.
    #[inline(always)]
    pub fn keep(&mut self, count: usize)
        ensures { self.new ≡ record self.old { mine = take count self.old.mine } }
    {
        let there = self.items.len() - self.base;
        let count = there.min(count);
        self.items.truncate(self.base + count);
    }

    // More slots for objects of these lengths. After an error there may be some of them.
    fn add_each(&mut self, lengths: &[u32], number: u64, place: usize) -> Result<(), AllocError>
        ensures ok { OnOk result (self.new ≡ record self.old { mine = self.old.mine ++ pointers_from number lengths.now }) }
        ensures err { OnErr result (take (length self.old.mine) self.new.mine ≡ self.old.mine) }
        ensures below { self.new.below ≡ self.old.below }
    {
        let mut object = number;
        let mut older = place;
        for length in lengths {
            self.add(Value::Point(Pointer {
                object,
                place: older,
                length: *length,
                offset: 0,
            }))?;
            let Some(next) = object.checked_add(1) else {
                return Err(AllocError);
            };
            object = next;
            older = older.saturating_add(1);
        }
        Ok(())
    }

    /// More slots for objects of these lengths, the first of which has this number and place. An error changes nothing.
    pub fn add_objects(
        &mut self,
        lengths: &[u32],
        number: u64,
        place: usize,
    ) -> Result<(), AllocError>
        ensures ok { OnOk result (self.new ≡ record self.old { mine = self.old.mine ++ pointers_from number lengths.now }) }
        ensures err { OnErr result (self.new ≡ self.old) }
    {
        let count = self.count();
        if self.add_each(lengths, number, place).is_err() {
            self.keep(count);
            return Err(AllocError);
        }
        Ok(())
    }

    /// So many more slots with no object. An error changes nothing.
    pub fn add_empty(&mut self, count: u32) -> Result<(), AllocError>
        ensures ok { OnOk result (self.new ≡ record self.old { mine = self.old.mine ++ replicate count Missing }) }
        ensures err { OnErr result (self.new ≡ self.old) }
    {
        let Some(length) = self.items.len().checked_add(count as usize) else {
            return Err(AllocError);
        };
        self.items.resize(length, Value::Missing)?;
        Ok(())
    }

    // A function begins, with no slots. How many its caller's callers have.
    #[inline(always)]
    fn begin(&mut self) -> usize
        ensures result { result ≡ length self.old.below }
        ensures slots { self.new ≡ record { mine = []; below = self.old.below ++ self.old.mine } }
    {
        let base = self.base;
        self.base = self.items.len();
        base
    }

    /// A function ends: its slots go, and its caller has those behind so many of others.
    #[inline(always)]
    pub fn close(&mut self, base: usize)
        ensures { self.new ≡ record { mine = drop base self.old.below; below = take base self.old.below } }
    {
        let end = self.base;
        self.items.truncate(end);
        self.base = base.min(end);
    }

    // So many more slots for objects of one cell each. After an error there may be some of them.
    fn add_cells(&mut self, count: usize, number: u64, place: usize) -> Result<(), AllocError>
        ensures ok { OnOk result (self.new ≡ record self.old { mine = self.old.mine ++ pointers_from number (replicate count 1) }) }
        ensures below { self.new.below ≡ self.old.below }
    {
        let mut object = number;
        let mut older = place;
        for _index in 0..count {
            self.add(Value::Point(Pointer {
                object,
                place: older,
                length: 1,
                offset: 0,
            }))?;
            let Some(next) = object.checked_add(1) else {
                return Err(AllocError);
            };
            object = next;
            older = older.saturating_add(1);
        }
        Ok(())
    }

    // More slots for a call. After an error there may be some of them.
    fn add_call(
        &mut self,
        cells: usize,
        empty: u32,
        number: u64,
        place: usize,
    ) -> Result<(), AllocError>
        ensures ok { OnOk result (self.new ≡ record self.old { mine = (self.old.mine ++ pointers_from number (replicate cells 1)) ++ replicate empty Missing }) }
        ensures below { self.new.below ≡ self.old.below }
    {
        self.add_cells(cells, number, place)?;
        self.add_empty(empty)?;
        Ok(())
    }

    /// A function begins, with slots for so many objects of one cell each, and then with so many empty ones. An error changes nothing.
    pub fn open(
        &mut self,
        cells: usize,
        empty: u32,
        number: u64,
        place: usize,
    ) -> Result<(), AllocError>
        ensures ok { OnOk result (self.new ≡ record { mine = pointers_from number (replicate cells 1) ++ replicate empty Missing; below = self.old.below ++ self.old.mine }) }
        ensures err { OnErr result (self.new ≡ self.old) }
    {
        let base = self.begin();
        if self.add_call(cells, empty, number, place).is_err() {
            self.close(base);
            return Err(AllocError);
        }
        Ok(())
    }

    /// How many slots the callers of the caller have.
    #[inline(always)]
    pub fn callers(&self) -> usize
        ensures { result ≡ length self.now.below }
    {
        self.base
    }
}
