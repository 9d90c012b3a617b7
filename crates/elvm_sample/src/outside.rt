// What the runs read from and write to.
ghost use Rattle.std.specs.Prelude.{◌≡◌, ◌<◌, ◌≤◌, ◌+◌, false, length, vec_len, vec_capacity, Some, [], IfOk, OnOk, OnErr};
ghost use Rattle.std.specs.Io.KnownBytes.{ReadConsumes, WriteAppends};
ghost use Rattle.mach_core.specs.Outside.{HasCause};

use mach_core::{Failed, Sink, Source};
use std::alloc::{AllocError, Global};

/// A source with no bytes.
#[derive(Clone, Copy)]
pub struct NoInput {
    over: bool,
}

impl NoInput {
    /// A source that was not asked yet.
    pub fn new() -> NoInput
        ensures { result.over ≡ false }
    {
        NoInput { over: false }
    }
}

impl Source for NoInput {
    ghost left = { λ _. Some [] };

    ghost over = { λ s. s.over };

    ghost faults = { λ _. 0 };

    fn read(&mut self, _buf: &mut [u8]) -> Result<usize, Failed> {
        self.over = true;
        Ok(0)
    }
}

/// A sink that grows, whose one fault is a growth that finds no memory.
#[derive(Drop)]
pub struct Grown {
    pub bytes: Vec<u8>,
    faults: u64,
}

impl Grown {
    /// A sink that got nothing.
    pub fn new(alloc: Global) -> Grown
        ensures got { result.bytes.items ≡ [] }
    {
        Grown {
            bytes: Vec::new(alloc),
            faults: 0,
        }
    }
}

impl Sink for Grown {
    ghost got = { λ s. Some s.bytes.items };

    ghost faults = { λ s. s.faults };

    fn write(&mut self, buf: &[u8]) -> Result<usize, Failed>
        ensures bound { IfOk result (λ n. n ≤ length buf.now) }
        ensures some { 0 < length buf.now → IfOk result (λ n. 0 < n) }
        ensures bytes { WriteAppends (⟦<Grown as Sink>⟧.got self.old) (⟦<Grown as Sink>⟧.got self.new) result buf.now }
        ensures cause { HasCause (⟦<Grown as Sink>⟧.faults self.old) (⟦<Grown as Sink>⟧.faults self.new) result }
        ensures quiet { OnOk result (⟦<Grown as Sink>⟧.faults self.new ≡ ⟦<Grown as Sink>⟧.faults self.old) }
        ensures full { OnErr result (vec_capacity self.old.bytes < vec_len self.old.bytes + length buf.now) }
    {
        match self.bytes.extend_from_slice(buf) {
            Ok(()) => Ok(buf.len()),
            Err(AllocError) => {
                self.faults = self.faults.saturating_add(1);
                Err(Failed)
            }
        }
    }
}
