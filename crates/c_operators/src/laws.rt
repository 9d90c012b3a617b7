//! What is true of the routines and C's operators.

ghost use Rattle.c_operators.specs.Operators.{OperatorsAreComputed};

/// Wherever the meaning of C gives a word for two words, the routine of the operator leaves it.
pub fn operators_are_computed()
    ensures { OperatorsAreComputed }
{}
