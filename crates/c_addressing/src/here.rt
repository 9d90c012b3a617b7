// Where code stands, and what is made there.

use c_emission::Location;
use c_operands::Declarations;
use c_scopes::Names;
use c_types::Types;
use eir_core::Op;
use ordered::OrderedMap;

/// What is declared where code stands: the types of names, the numbers of objects by their names, where the objects lie
/// by their numbers, and the first blocks of functions.
#[derive(Drop)]
pub struct Here<'t> {
    pub declared: Declarations<'t>,
    pub slots: Names<'t>,
    pub bases: Vec<Location>,
    pub entries: OrderedMap<&'t [u8], u32>,
}

/// The addresses of the string literals that are still to come in a function, and the address behind them.
#[derive(Clone, Copy)]
pub struct Literals<'t> {
    pub next: &'t [u32],
    pub end: u32,
}

/// Code one piece behind the other, with the table of types and the literals that are still to come.
#[derive(Drop)]
pub struct Output<'t> {
    pub types: Types<'t>,
    pub literals: Literals<'t>,
    pub ops: Vec<Op>,
}

impl<'t> Literals<'t> {
    ghost use Rattle.std.specs.Prelude.{◌≡◌, drop};
    ghost use Rattle.c_addressing.specs.Here.{first_or};

    /// The address of the next literal.
    pub fn first(self) -> u32
        ensures { result ≡ first_or self.entry.end self.entry.next.now }
    {
        match self.next.first() {
            Some(address) => *address,
            None => self.end,
        }
    }

    /// Those behind the next one.
    pub fn behind(self) -> Literals<'t>
        ensures next { result.next.now ≡ drop 1 self.entry.next.now }
        ensures end { result.end ≡ self.entry.end }
    {
        match self.next {
            [_first, more @ ..] => Literals {
                next: more,
                end: self.end,
            },
            [] => self,
        }
    }
}
