//! What operators of C take and give, on operands whose types are numbers. Names of C where they are used: as values,
//! as tags, and in calls of functions, through pointers and of `printf`.
#![tactic(auto)]

mod arguments;
mod calls;
mod class;
mod conversion;
mod declarations;
mod formats;
mod operand;
mod operators;
mod parameters;
mod refusal;
mod uses;
mod value;

pub use arguments::{Argument, Callee};
pub use calls::{call, function_parts};
pub use class::{Class, class_of, pointee, used_type};
pub use conversion::{can_cast, can_equal, can_order, converts, is_condition};
pub use declarations::Declarations;
pub use operand::{Operand, Sort, Value};
pub use operators::{address, assign, cast, comma, is_word_place, negation, number};
pub use parameters::{first_type, least_of, merged};
pub use refusal::{Judged, least, one_rule, two_rules};
pub use uses::{called, named, names_function, struct_type};
pub use value::{place_at, value_at, value_of};
