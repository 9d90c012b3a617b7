// What is known of the number of values within a block.
ghost use Rattle.std.specs.Prelude.{◌≡◌, ◌+◌, ◌≤◌, ◌<◌, ◌^◌, IfSome};
ghost use Rattle.wasm_valid.specs.Effects.{gives_of};
ghost use Rattle.wasm_valid.specs.Levels.{is_allowed, without, with_more, level_after};

use crate::effect::Effect;

/// What is known of the number of values within a block.
#[derive(Clone, Copy)]
pub struct Level {
    pub height: u64,
    /// Whether control comes here. Where it does not, any number of values from `height` on is allowed.
    pub reached: bool,
}

/// Nothing is on the stack.
pub const START: Level = Level {
    height: 0,
    reached: true,
};

/// Any number of values may be on it.
const BREAK: Level = Level {
    height: 0,
    reached: false,
};

impl Level {
    /// Whether so many values may be on the stack.
    pub fn is_allowed(self, count: u64) -> bool
        ensures { result ≡ is_allowed self count }
    {
        if self.reached {
            count == self.height
        } else {
            self.height <= count
        }
    }

    /// So many values less.
    pub fn without(self, count: u64) -> Option<Level>
        ensures level { result ≡ without self count }
        ensures low { IfSome result (λ l. l.height ≤ self.height) }
    {
        if count <= self.height {
            Some(Level {
                height: self.height - count,
                reached: self.reached,
            })
        } else if self.reached {
            None
        } else {
            Some(BREAK)
        }
    }

    /// So many values more.
    pub fn with_more(self, count: u64) -> Level
        requires { self.height + count < 2 ^ 64 }
        ensures { result ≡ with_more count self }
    {
        Level {
            height: self.height + count,
            reached: self.reached,
        }
    }

    /// What an effect leaves.
    pub fn after(self, effect: Effect) -> Option<Level>
        requires low { self.height ≤ 2 ^ 63 }
        requires few { gives_of effect ≤ 1 }
        ensures { result ≡ level_after self effect }
    {
        match effect {
            Effect::Turns(takes, gives) => Some(self.without(takes)?.with_more(gives)),
            Effect::Breaks(takes) => {
                self.without(takes)?;
                Some(BREAK)
            }
        }
    }
}
