use vn_types::Name;

/// A constructor with its destructor, and the place at which they run: a subsystem, and an order within it.
#[derive(Drop)]
pub struct SysEntry {
    pub subsystem: u32,
    pub order: u32,
    pub name: Name,
}
