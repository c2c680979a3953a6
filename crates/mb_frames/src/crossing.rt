// What waits for another side.
use crate::task::Method;
use mb_base::{ObjId, Side};

/// A frame that waits at home for what another side does.
#[derive(Drop)]
pub enum MembraneFrame {
    /// What comes from another side is handed on.
    Crossing,
    /// The trap of a script-made Proxy of another side was looked up there.
    TrapGot {
        owner: Side,
        target: ObjId,
        handler: ObjId,
        method: Method,
    },
}
