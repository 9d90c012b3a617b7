// Blocks to which statements jump.

/// The blocks to which `break` and `continue` lead.
#[derive(Clone, Copy)]
pub struct Targets {
    pub broke: u32,
    pub continued: u32,
}
