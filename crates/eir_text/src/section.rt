//! The sections of a text.

/// Where a line stands: among operations, or in the data piece of this number.
#[derive(Clone, Copy)]
pub enum Section {
    Text,
    Data(u32),
}
