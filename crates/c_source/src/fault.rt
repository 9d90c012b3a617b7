//! Why a text of C is no program.

use c_parse::ParseFault;
use c_prep::PrepFault;
use c_types::TypeFault;

/// Why a text is no typed tree: the first of the three steps that refuses it, and for what reason.
#[derive(Clone, Copy)]
pub enum SourceFault {
    /// It has no tokens.
    Prepare(PrepFault),
    /// Its tokens spell no unit within the limits.
    Parse(ParseFault),
    /// The unit isn't typed within the limits.
    Check(TypeFault),
}
