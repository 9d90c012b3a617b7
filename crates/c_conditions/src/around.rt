// What stands around a statement.

/// What stands around a statement: the type of its function's result, and whether a `continue` and a `break` have something to leave.
#[derive(Clone, Copy)]
pub struct Around {
    pub result: usize,
    pub continues: bool,
    pub breaks: bool,
}

impl Around {
    ghost use Rattle.c_types.specs.Statements as plain;
    ghost use Rattle.c_types.specs.Statements.{in_loop, in_switch};
    ghost use Rattle.c_types.specs.Table.{Table};
    ghost use Rattle.c_conditions.specs.Standing.{StandsIn};

    /// In a loop.
    pub fn in_loop(self) -> Around
        ensures { (table : Table) (w : plain.Around) → StandsIn table self w → StandsIn table result (in_loop w) }
    {
        Around {
            result: self.result,
            continues: true,
            breaks: true,
        }
    }

    /// In a `switch`.
    pub fn in_switch(self) -> Around
        ensures { (table : Table) (w : plain.Around) → StandsIn table self w → StandsIn table result (in_switch w) }
    {
        Around {
            result: self.result,
            continues: self.continues,
            breaks: true,
        }
    }
}
