// A value for each register.
ghost use Rattle.std.specs.Prelude.{◌≡◌};
ghost use Rattle.eir_opt.specs.ByRegister.{at, with_at, everywhere};

use eir_core::Reg;

/// A value for each register.
#[derive(Clone, Copy)]
pub struct ByRegister<T> {
    pub a: T,
    pub b: T,
    pub c: T,
    pub d: T,
    pub sp: T,
    pub bp: T,
}

impl<T: Copy> ByRegister<T> {
    /// The same value for each register.
    pub fn all(value: T) -> ByRegister<T>
        ensures { result ≡ everywhere value }
    {
        ByRegister {
            a: value,
            b: value,
            c: value,
            d: value,
            sp: value,
            bp: value,
        }
    }

    /// The value for a register.
    pub fn get(&self, r: Reg) -> T
        ensures { result ≡ at self.now r }
    {
        match r {
            Reg::A => self.a,
            Reg::B => self.b,
            Reg::C => self.c,
            Reg::D => self.d,
            Reg::SP => self.sp,
            Reg::BP => self.bp,
        }
    }

    /// Changes the value for a register.
    pub fn set(&mut self, r: Reg, value: T)
        ensures { self.new ≡ with_at self.old r value }
    {
        match r {
            Reg::A => self.a = value,
            Reg::B => self.b = value,
            Reg::C => self.c = value,
            Reg::D => self.d = value,
            Reg::SP => self.sp = value,
            Reg::BP => self.bp = value,
        }
    }
}
