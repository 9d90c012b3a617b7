// Where an expression stands.

use c_operands::Declarations;

/// Where an expression stands: what is declared there, and the names of the tags in the order of their numbers.
#[derive(Drop)]
pub struct Here<'t> {
    pub declared: Declarations<'t>,
    pub tags: Vec<&'t [u8]>,
}
