// Terminals, kept apart from operations and positions.

// A terminal. Those that are served are 0 to 63; any other number can be given, and is refused.
#[repr(C)]
#[derive(Clone, Copy, Debug, PartialEq, Eq)]
pub struct Terminal(pub u16);
