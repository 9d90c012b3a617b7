// A call of a function of the module.

ghost use Rattle.std.specs.Prelude.{◌≡◌, ◌+◌, ◌<◌, ◌^◌, [], ◌∷◌, false, length, drop, slice_get, slice_set, Some, OnOk, OnErr};
ghost use Rattle.wasm_bin.specs.declared.module.Module.{Module};
ghost use Rattle.wasm_rule.specs.Code.{own_code, past_end};
ghost use Rattle.wasm_rule.specs.Rule.{onward, entered, looped, branched};
ghost use Rattle.wasm_parts.specs.Frames.{marked_label, labels_of, call_of};

use crate::stack::{Room, Stack};
use std::alloc::{AllocError, Global};

/// A block that has begun.
#[derive(Clone, Copy)]
pub struct Mark {
    /// A branch to it takes the top value along.
    pub takes: bool,
    /// How many values lie beneath.
    pub beneath: usize,
    /// The place where a branch to it goes on.
    pub target: usize,
}

/// A call of a function of the module.
#[derive(Drop)]
pub struct CallFrame {
    /// The index of the function among those of the module.
    pub body: u32,
    /// The place of the next instruction.
    pub place: usize,
    /// Its end gives the top value.
    pub gives: bool,
    pub locals: Vec<u32>,
    pub values: Stack<u32>,
    pub marks: Stack<Mark>,
}

/// Changes the item at an index, if there is one.
#[inline(always)]
pub fn set_item(items: &mut Vec<u32>, index: u32, value: u32)
    ensures { items.new.items ≡ slice_set items.old.items index value }
{
    if (index as usize) < items.len() {
        items[index as usize] = value;
    }
}

impl CallFrame {
    /// A call that stands for nothing, in the place of one that is held elsewhere.
    pub fn none(alloc: Global) -> CallFrame
        ensures place { (result.body ≡ 0) × (result.place ≡ 0) × (result.gives ≡ false) }
        ensures empty { (result.locals.items ≡ []) × (result.values ≡ []) × (result.marks ≡ []) }
    {
        CallFrame {
            body: 0,
            place: 0,
            gives: false,
            locals: Vec::new(alloc),
            values: Stack::new(alloc),
            marks: Stack::new(alloc),
        }
    }

    /// Takes so many values, and goes on.
    #[tactic(auto, using(crate::proofs::FrameLemmas::next_place))]
    #[inline(always)]
    pub fn take(&mut self, count: usize)
        requires { self.old.place < 2 ^ 63 }
        ensures call { (m : Module) → call_of m self.new ≡ onward (call_of m self.old) (drop count self.old.values) }
        ensures body { self.new.body ≡ self.old.body }
    {
        self.values.drop_top(count);
        self.place += 1;
    }

    /// Puts a value in the place of so many, and goes on.
    #[tactic(auto, using(crate::proofs::FrameLemmas::next_place))]
    #[inline(always)]
    pub fn put(&mut self, room: Room, count: usize, value: u32) -> Result<(), AllocError>
        requires { self.old.place < 2 ^ 63 }
        ensures ok { OnOk result ((m : Module) → call_of m self.new ≡ onward (call_of m self.old) (value ∷ drop count self.old.values)) }
        ensures err { OnErr result (self.new ≡ self.old) }
        ensures body { self.new.body ≡ self.old.body }
    {
        self.values.put(room, count, value)?;
        self.place += 1;
        Ok(())
    }

    /// Puts a value in the place of the top, and goes on.
    #[tactic(auto, using(crate::proofs::FrameLemmas::topmost))]
    #[inline(always)]
    pub fn put_top(&mut self, value: u32)
        requires place { self.old.place < 2 ^ 63 }
        requires top { 0 < length self.old.values }
        ensures call { (m : Module) → call_of m self.new ≡ onward (call_of m self.old) (value ∷ drop 1 self.old.values) }
        ensures body { self.new.body ≡ self.old.body }
    {
        self.values.set(0, value);
        self.place += 1;
    }

    /// Takes so many values, changes a local if there is one of this index, and goes on.
    #[tactic(auto, using(crate::proofs::FrameLemmas::next_place))]
    #[inline(always)]
    pub fn set_local(&mut self, count: usize, index: u32, value: u32)
        requires { self.old.place < 2 ^ 63 }
        ensures call { (m : Module) → call_of m self.new ≡ record (onward (call_of m self.old) (drop count self.old.values)) { locals = slice_set self.old.locals.items index value } }
        ensures body { self.new.body ≡ self.old.body }
    {
        set_item(&mut self.locals, index, value);
        self.values.drop_top(count);
        self.place += 1;
    }

    /// Takes so many values, and begins a block, which goes on at this place; it leaves a value or not, and goes on
    /// behind its `end`.
    #[inline(always)]
    pub fn enter(
        &mut self,
        room: Room,
        count: usize,
        gives: bool,
        past: usize,
        place: usize,
    ) -> Result<(), AllocError>
        ensures ok { OnOk result ((m : Module) → drop past (own_code m self.old.body) ≡ past_end 0 (drop 1 (drop self.old.place (own_code m self.old.body)))
            → call_of m self.new ≡ entered (call_of m self.old) gives (drop count self.old.values) (drop place (own_code m self.old.body))) }
        ensures err { OnErr result (self.new ≡ self.old) }
        ensures body { self.new.body ≡ self.old.body }
    {
        let mark = Mark {
            takes: gives,
            beneath: self.values.len().saturating_sub(count),
            target: past,
        };
        self.marks.push(room, mark)?;
        self.values.drop_top(count);
        self.place = place;
        Ok(())
    }

    /// Begins a loop.
    #[tactic(auto, using(crate::proofs::FrameLemmas::next_place))]
    #[inline(always)]
    pub fn begin_loop(&mut self, room: Room) -> Result<(), AllocError>
        requires { self.old.place < 2 ^ 63 }
        ensures ok { OnOk result ((m : Module) → call_of m self.new ≡ looped (call_of m self.old)) }
        ensures err { OnErr result (self.new ≡ self.old) }
        ensures body { self.new.body ≡ self.old.body }
    {
        let mark = Mark {
            takes: false,
            beneath: self.values.len(),
            target: self.place,
        };
        self.marks.push(room, mark)?;
        self.place += 1;
        Ok(())
    }

    /// Takes so many values, and goes out to the block so far out.
    #[inline(always)]
    pub fn go_out(
        &mut self,
        room: Room,
        count: usize,
        depth: u32,
        mark: Mark,
    ) -> Result<(), AllocError>
        requires { slice_get self.old.marks depth ≡ Some mark }
        ensures ok { OnOk result ((m : Module) → call_of m self.new
            ≡ branched (call_of m self.old) (marked_label (own_code m self.old.body) mark) (labels_of m self.old (drop (depth + 1) self.old.marks)) (drop count self.old.values)) }
        ensures err { OnErr result (self.new ≡ self.old) }
        ensures body { self.new.body ≡ self.old.body }
    {
        self.values.keep(room, count, mark.beneath, mark.takes)?;
        self.marks.drop_top(depth as usize + 1);
        self.place = mark.target;
        Ok(())
    }

    /// Leaves the innermost block, of this mark.
    #[inline(always)]
    pub fn leave(&mut self, mark: Mark)
        ensures call { (m : Module) → call_of m self.new ≡ record (call_of m self.old) { labels = labels_of m self.old (drop 1 self.old.marks); code = drop mark.target (own_code m self.old.body) } }
        ensures body { self.new.body ≡ self.old.body }
    {
        self.marks.drop_top(1);
        self.place = mark.target;
    }

    /// Ends the innermost block.
    #[tactic(auto, using(crate::proofs::FrameLemmas::next_place))]
    #[inline(always)]
    pub fn close(&mut self)
        requires { self.old.place < 2 ^ 63 }
        ensures call { (m : Module) → call_of m self.new ≡ record (call_of m self.old) { labels = labels_of m self.old (drop 1 self.old.marks); code = drop 1 (call_of m self.old).code } }
        ensures body { self.new.body ≡ self.old.body }
    {
        self.marks.drop_top(1);
        self.place += 1;
    }
}
