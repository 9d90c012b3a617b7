// Where a run is.

ghost use Rattle.std.specs.Prelude.{◌≡◌, ◌+◌, ◌<◌, ◌≤◌, ◌^◌, [], ◌∷◌, length, drop, slice_get, slice_set, Some, None, IfOk, OnOk, OnErr};
ghost use Rattle.wasm_bin.specs.declared.module.Module.{Module};
ghost use Rattle.wasm_rule.specs.Code.{own_code, most_pages};
ghost use Rattle.wasm_parts.specs.Jumps.{Leads};
ghost use Rattle.wasm_rule.specs.Memory.{WantsPage, bytes_of};
ghost use Rattle.wasm_run.specs.Machine.{MayWant};
ghost use Rattle.mach_core.specs.Held.{StepsHeld};
ghost use Rattle.wasm_rule.specs.Rule.{returned, ended, wasm_rule};
ghost use Rattle.wasm_parts.specs.Frames.{call_of};
ghost use Rattle.wasm_run.specs.States.{callers_of, config_of, acted, Does, AreSame};

use crate::buffered::run_buffered;
use crate::linked::Linked;
use mach_core::{Feed, Moved, Put, Status};
use std::alloc::{AllocError, Global};
use std::mem::replace;
use wasm_parts::frame::{CallFrame, set_item};
use wasm_parts::jumps::Jump;
use wasm_parts::memory::Pages;
use wasm_parts::stack::Room;
use wasm_rule::Act;

/// The calls, globals and memory of a run.
#[derive(Drop)]
pub struct State {
    /// The last call.
    pub frame: CallFrame,
    /// The calls beneath it.
    pub callers: Vec<CallFrame>,
    /// The call that is made after the last of these has ended.
    pub later: Option<CallFrame>,
    pub globals: Vec<u32>,
    pub memory: Pages,
    pub status: Status,
}

impl State {
    /// Takes so many values of the last call.
    fn take(&mut self, count: u32)
        requires { self.old.frame.place < 2 ^ 63 }
        ensures { (m : Module) → config_of m self.new ≡ acted m self.old (Act.Take count) 0 }
    {
        self.frame.take(count as usize);
    }

    /// Puts a value in the place of so many.
    fn put(&mut self, count: u32, value: u32) -> Result<(), AllocError>
        requires { self.old.frame.place < 2 ^ 63 }
        ensures ok { OnOk result ((m : Module) → config_of m self.new ≡ acted m self.old (Act.Put count value) 0) }
        ensures err { OnErr result (AreSame self.old self.new) }
    {
        self.frame.put(Room::Grown, count as usize, value)
    }

    /// Takes so many values, and changes a local.
    fn set_local(&mut self, count: u32, index: u32, value: u32)
        requires { self.old.frame.place < 2 ^ 63 }
        ensures { (m : Module) → config_of m self.new ≡ acted m self.old (Act.SetLocal count index value) 0 }
    {
        self.frame.set_local(count as usize, index, value);
    }

    /// Takes a value, and changes a global.
    fn set_global(&mut self, index: u32, value: u32)
        requires { self.old.frame.place < 2 ^ 63 }
        ensures { (m : Module) → config_of m self.new ≡ acted m self.old (Act.SetGlobal index value) 0 }
    {
        set_item(&mut self.globals, index, value);
        self.frame.take(1);
    }

    /// Stores so many bytes of a word. Memory is wanted only for a byte other than 0 in a page of zeros.
    fn store(&mut self, count: u32, address: u64, word: u32) -> Result<(), AllocError>
        requires { self.old.frame.place < 2 ^ 63 }
        ensures ok { OnOk result ((m : Module) → config_of m self.new ≡ acted m self.old (Act.Store count address word) 0) }
        ensures err { OnErr result (AreSame self.old self.new) }
        ensures cause { OnErr result (WantsPage self.old.memory.bytes address (bytes_of count word)) }
    {
        if !self.memory.contains(address, count) {
            self.status = Status::Fault(2);
            return Ok(());
        }
        self.memory.store(address as usize, count, word)?;
        self.frame.take(2);
        Ok(())
    }

    /// Lets the memory grow, and puts its old size.
    fn grow_by(&mut self, more: u32) -> Result<(), AllocError>
        requires place { self.old.frame.place < 2 ^ 63 }
        requires pages { self.old.memory.pages + more < 2 ^ 32 }
        ensures ok { OnOk result ((m : Module) → self.old.memory.pages + more ≤ most_pages m → config_of m self.new ≡ acted m self.old (Act.Grow more) 0) }
        ensures err { OnErr result (AreSame self.old self.new) }
    {
        let size = self.memory.count();
        if self.frame.values.len() == 0 {
            self.frame.values.push(Room::Grown, size)?;
            if self.memory.grow(more).is_err() {
                self.frame.values.drop_top(1);
                return Err(AllocError);
            }
            self.frame.take(0);
            return Ok(());
        }
        self.memory.grow(more)?;
        self.frame.put_top(size);
        Ok(())
    }

    /// Lets the memory grow to at most so many pages, and puts its old size, or else the word of -1.
    fn grow(&mut self, most: u32, more: u32) -> Result<(), AllocError>
        requires place { self.old.frame.place < 2 ^ 63 }
        requires most { most ≤ 1024 }
        ensures ok { OnOk result ((m : Module) → most ≡ most_pages m → config_of m self.new ≡ acted m self.old (Act.Grow more) 0) }
        ensures err { OnErr result (AreSame self.old self.new) }
    {
        if self.memory.count() as u64 + more as u64 <= most as u64 {
            self.grow_by(more)
        } else {
            self.frame.put(Room::Grown, 1, u32::MAX)
        }
    }

    /// Takes so many values, and begins a block.
    fn block(&mut self, count: u32, gives: bool, jump: Jump) -> Result<(), AllocError>
        requires { self.old.frame.place < 2 ^ 63 }
        ensures ok { OnOk result ((m : Module) → Leads (own_code m self.old.frame.body) 0 (drop (self.old.frame.place + 1) (own_code m self.old.frame.body)) jump → config_of m self.new ≡ acted m self.old (Act.Block count gives) 0) }
        ensures err { OnErr result (AreSame self.old self.new) }
    {
        let place = self.frame.place + 1;
        self.frame
            .enter(Room::Grown, count as usize, gives, jump.past, place)
    }

    /// Takes a value, and begins a block at its `else`, or at its `end` where it has none.
    fn otherwise(&mut self, gives: bool, jump: Jump) -> Result<(), AllocError>
        ensures ok { OnOk result ((m : Module) → Leads (own_code m self.old.frame.body) 0 (drop (self.old.frame.place + 1) (own_code m self.old.frame.body)) jump → config_of m self.new ≡ acted m self.old (Act.Otherwise gives) 0) }
        ensures err { OnErr result (AreSame self.old self.new) }
    {
        self.frame
            .enter(Room::Grown, 1, gives, jump.past, jump.other)
    }

    /// Begins a loop.
    fn begin_loop(&mut self) -> Result<(), AllocError>
        requires { self.old.frame.place < 2 ^ 63 }
        ensures ok { OnOk result ((m : Module) → config_of m self.new ≡ acted m self.old Act.Loop 0) }
        ensures err { OnErr result (AreSame self.old self.new) }
    {
        self.frame.begin_loop(Room::Grown)
    }

    /// The last of the calls has ended.
    fn end(&mut self)
        requires { self.old.callers.items ≡ [] }
        ensures { (m : Module) → config_of m self.new ≡ ended (config_of m self.old) (config_of m self.old).later }
    {
        match self.later.take() {
            Some(frame) => self.frame = frame,
            None => self.status = Status::Ended,
        }
    }

    /// The call ends, whose result lies under so many values.
    fn end_call(&mut self, count: u32) -> Result<(), AllocError>
        ensures ok { OnOk result ((m : Module) → config_of m self.new
            ≡ returned (config_of m self.old) (call_of m self.old.frame) (drop count self.old.frame.values) (callers_of m self.old.callers.items)) }
        ensures err { OnErr result (AreSame self.old self.new) }
    {
        let Some(mut caller) = self.callers.pop() else {
            self.end();
            return Ok(());
        };
        if self.frame.gives {
            let value = self.frame.values.value(count as usize);
            if caller.values.push(Room::Grown, value).is_err() {
                let Ok(()) = self.callers.push(caller) else {
                    unreachable!();
                };
                return Err(AllocError);
            }
        }
        self.frame = caller;
        Ok(())
    }

    /// Leaves the innermost block, or else the call.
    pub fn leave(&mut self) -> Result<(), AllocError>
        ensures ok { OnOk result ((m : Module) → config_of m self.new ≡ acted m self.old Act.Leave 0) }
        ensures err { OnErr result (AreSame self.old self.new) }
    {
        match self.frame.marks.get(0) {
            Some(mark) => {
                self.frame.leave(mark);
                Ok(())
            }
            None => self.end_call(0),
        }
    }

    /// Ends the innermost block, or else the call.
    fn close(&mut self) -> Result<(), AllocError>
        requires { self.old.frame.place < 2 ^ 63 }
        ensures ok { OnOk result ((m : Module) → config_of m self.new ≡ acted m self.old Act.End 0) }
        ensures err { OnErr result (AreSame self.old self.new) }
    {
        if self.frame.marks.len() == 0 {
            return self.end_call(0);
        }
        self.frame.close();
        Ok(())
    }

    /// Takes so many values, and goes out to the block so far out, or ends the call.
    fn branch(&mut self, count: u32, depth: u32) -> Result<(), AllocError>
        ensures ok { OnOk result ((m : Module) → config_of m self.new ≡ acted m self.old (Act.Branch count depth) 0) }
        ensures err { OnErr result (AreSame self.old self.new) }
    {
        match self.frame.marks.get(depth as usize) {
            Some(mark) => self.frame.go_out(Room::Grown, count as usize, depth, mark),
            None => self.end_call(count),
        }
    }

    /// Calls an own function with the values at the top.
    fn call(&mut self, alloc: Global, linked: &Linked, own: u32) -> Result<(), AllocError>
        requires { self.old.frame.place < 2 ^ 63 }
        ensures ok { OnOk result (config_of linked.now self.new ≡ acted linked.now self.old (Act.Call own) 0) }
        ensures err { OnErr result (AreSame self.old self.new) }
    {
        let count = linked.params(own) as usize;
        let arguments = self.frame.values.top_items(alloc, count)?;
        let callee = linked.frame(alloc, own, arguments)?;
        self.callers.reserve(1)?;
        self.frame.take(count);
        let caller = replace(&mut self.frame, callee);
        let Ok(()) = self.callers.push(caller) else {
            unreachable!();
        };
        Ok(())
    }

    /// Does an act. An error leaves all as it was.
    pub fn perform(
        &mut self,
        alloc: Global,
        linked: &Linked,
        act: Act,
        fed: u8,
    ) -> Result<Moved, AllocError>
        requires within { self.old.frame.place < length (own_code linked.now self.old.frame.body) }
        requires bound { self.old.frame.place < 2 ^ 63 }
        ensures ok { IfOk result (λ moved. Does linked.now self.old act fed self.new moved) }
        ensures err { OnErr result (AreSame self.old self.new) }
        ensures cause { OnErr result (MayWant self.old.memory.bytes act) }
    {
        match act {
            Act::Take(count) => self.take(count),
            Act::Put { taken, value } => self.put(taken, value)?,
            Act::SetLocal {
                taken,
                index,
                value,
            } => self.set_local(taken, index, value),
            Act::SetGlobal { index, value } => self.set_global(index, value),
            Act::Store {
                count,
                address,
                word,
            } => self.store(count, address, word)?,
            Act::Grow(more) => self.grow(linked.most_pages(), more)?,
            Act::Block { taken, gives } => {
                let jump = linked.jump(self.frame.body, self.frame.place);
                self.block(taken, gives, jump)?;
            }
            Act::Loop => self.begin_loop()?,
            Act::Otherwise { gives } => {
                let jump = linked.jump(self.frame.body, self.frame.place);
                self.otherwise(gives, jump)?;
            }
            Act::Leave => self.leave()?,
            Act::End => self.close()?,
            Act::Branch { taken, depth } => self.branch(taken, depth)?,
            Act::Return => self.end_call(0)?,
            Act::Call(own) => self.call(alloc, linked, own)?,
            Act::Read => {
                self.put(0, fed as u32)?;
                return Ok(Moved::Took);
            }
            Act::Write(byte) => {
                self.take(1);
                return Ok(Moved::Wrote(byte));
            }
            Act::Stop(code) => self.status = Status::Fault(code),
        }
        Ok(Moved::Quiet)
    }

    /// Makes at most so many steps with what is held, and says how many. It stops before a step that takes where no byte
    /// is held, that writes where there is no room, that needs memory, or that leaves the call.
    pub fn run_buffered(
        &mut self,
        alloc: Global,
        linked: &Linked,
        most: u64,
        feed: &mut Feed,
        put: &mut Put,
    ) -> u64
        ensures few { result ≤ most }
        ensures held { StepsHeld (wasm_rule linked.now) (config_of linked.now self.old) (record { held = feed.old; put = put.old }) result
            (config_of linked.now self.new) (record { held = feed.new; put = put.new }) }
    {
        match self.status {
            Status::Going => {}
            _ => return 0,
        }
        let calls = self.callers.len() + 1;
        let mut frame = replace(&mut self.frame, CallFrame::none(alloc));
        let made = run_buffered(
            linked,
            calls,
            &mut frame,
            &mut self.globals,
            &mut self.memory,
            most,
            feed,
            put,
        );
        self.frame = frame;
        made
    }
}
