// Where code stands.

use c_operands::Declarations;
use c_scopes::Names;

/// What is declared where code stands: the types of names, and the slots of those that the function declares.
#[derive(Drop)]
pub struct Here<'t> {
    pub declared: Declarations<'t>,
    pub slots: Names<'t>,
}
