//! One unit of a host.
/// A core or a GPU of a host: its id, and whether no live job has it.
#[derive(Clone, Copy)]
pub struct Spot {
    pub id: u32,
    pub free: bool,
}
