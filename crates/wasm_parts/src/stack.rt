// Lists that grow and shrink at one end.

ghost use Rattle.std.specs.Prelude.{◌≡◌, ◌<◌, [], ◌∷◌, length, drop, take, reverse, slice_get, slice_index, slice_set, IfOk, OnOk, OnErr};
ghost use Rattle.wasm_rule.specs.Values.{lowest, topped};

use std::alloc::{AllocError, Global};
use std::marker::Model;

/// Where the room for one more item comes from.
#[derive(Clone, Copy)]
pub enum Room {
    /// It is there already.
    Held,
    /// It is there, or memory is taken.
    Grown,
}

/// Items, which a clause sees as a list with the top first. The room that it once had stays.
#[derive(Drop)]
pub struct Stack<T: Copy> {
    /// The first of them are on the stack, the top last.
    items: Vec<T>,
    count: usize,
}

impl<T: Copy> Model for Stack<T> {
    ghost use Rattle.std.specs.Prelude.{◌≤◌, List, length, reverse, take};

    ghost Value = { List T };

    ghost view = { λ s. reverse (take s.count s.items.items) };

    ghost invariant = { λ s. s.count ≤ length s.items.items };
}

impl<T: Copy> Stack<T> {
    /// No items.
    pub fn new(alloc: Global) -> Stack<T>
        ensures { result ≡ [] }
    {
        Stack {
            items: Vec::new(alloc),
            count: 0,
        }
    }

    /// No items, with room for so many. The filler is never read.
    pub fn with_room(alloc: Global, count: usize, filler: T) -> Result<Stack<T>, AllocError>
        ensures { IfOk result (λ s. s ≡ []) }
    {
        let mut items = Vec::new(alloc);
        items.resize(count, filler)?;
        Ok(Stack { items, count: 0 })
    }

    /// How many there are.
    #[inline(always)]
    pub fn len(&self) -> usize
        ensures { result ≡ length self.now }
    {
        self.count
    }

    /// The item so many places below the top.
    #[inline(always)]
    pub fn get(&self, depth: usize) -> Option<T>
        ensures { result ≡ slice_get self.now depth }
    {
        if depth < self.count {
            Some(self.items[self.count - 1 - depth])
        } else {
            None
        }
    }

    /// Puts an item on the top. It fails where there is no room, and none can be had or none may be taken.
    #[inline(always)]
    pub fn push(&mut self, room: Room, item: T) -> Result<(), AllocError>
        ensures ok { OnOk result (self.new ≡ item ∷ self.old) }
        ensures err { OnErr result (self.new ≡ self.old) }
    {
        if self.count < self.items.len() {
            self.items[self.count] = item;
            self.count += 1;
            return Ok(());
        }
        match room {
            Room::Held => Err(AllocError),
            Room::Grown => self.push_behind(item),
        }
    }

    /// Puts an item on the top of a stack that has no room.
    fn push_behind(&mut self, item: T) -> Result<(), AllocError>
        ensures ok { OnOk result (self.new ≡ item ∷ self.old) }
        ensures err { OnErr result (self.new ≡ self.old) }
    {
        self.items.truncate(self.count);
        match self.items.push(item) {
            Ok(()) => {
                self.count += 1;
                Ok(())
            }
            Err(_) => Err(AllocError),
        }
    }

    /// Changes the item so many places below the top.
    #[inline(always)]
    pub fn set(&mut self, depth: usize, item: T)
        requires { depth < length self.old }
        ensures { self.new ≡ slice_set self.old depth item }
    {
        let place = self.count - 1 - depth;
        self.items[place] = item;
    }

    /// Drops so many items from the top, or all.
    #[inline(always)]
    pub fn drop_top(&mut self, count: usize)
        ensures { self.new ≡ drop count self.old }
    {
        self.count = self.count.saturating_sub(count);
    }

    /// Puts an item in the place of so many items at the top. It fails only where it has to put it on the top.
    #[inline(always)]
    pub fn put(&mut self, room: Room, count: usize, item: T) -> Result<(), AllocError>
        ensures ok { OnOk result (self.new ≡ item ∷ drop count self.old) }
        ensures err { OnErr result (self.new ≡ self.old) }
    {
        if count == 0 || self.len() == 0 {
            return self.push(room, item);
        }
        let beneath = self.count.saturating_sub(count);
        self.items[beneath] = item;
        self.count = beneath + 1;
        Ok(())
    }

    /// The items at the top, the lowest of them first.
    pub fn top_items(&self, alloc: Global, count: usize) -> Result<Vec<T>, AllocError>
        ensures { IfOk result (λ taken. taken.items ≡ reverse (take count self.now)) }
    {
        let rest = self.count.saturating_sub(count);
        Vec::from_slice(alloc, &self.items[rest..self.count])
    }
}

impl Stack<u32> {
    /// The value so many places below the top, or 0 where there is none.
    #[inline(always)]
    pub fn value(&self, depth: usize) -> u32
        ensures { result ≡ slice_index self.now depth }
    {
        self.get(depth).unwrap_or(0)
    }

    /// The top value, or 0 where there is none.
    #[inline(always)]
    pub fn top(&self) -> u32
        ensures { result ≡ slice_index self.now 0 }
    {
        self.value(0)
    }

    /// The value under the top, or 0 where there is none.
    #[inline(always)]
    pub fn second(&self) -> u32
        ensures { result ≡ slice_index self.now 1 }
    {
        self.value(1)
    }

    #[tactic(auto, using(crate::proofs::StackLemmas::kept))]
    /// Drops so many values from the top and then all but the lowest, and keeps the one between at the top besides, if
    /// it is asked for.
    #[inline(always)]
    pub fn keep(
        &mut self,
        room: Room,
        skip: usize,
        count: usize,
        top: bool,
    ) -> Result<(), AllocError>
        ensures ok { OnOk result (self.new ≡ topped top (slice_index (drop skip self.old) 0) (lowest count (drop skip self.old))) }
        ensures err { OnErr result (self.new ≡ self.old) }
    {
        let value = self.value(skip);
        let dropped = skip + self.len().saturating_sub(skip).saturating_sub(count);
        if top {
            return self.put(room, dropped, value);
        }
        self.drop_top(dropped);
        Ok(())
    }
}
