// Numbers that must not be taken for one another, as the report keeps operations and states apart.

// An operation: a distinct name, numbered 0, 1, .. in order of first appearance.
#[repr(C)]
#[derive(Clone, Copy, Debug, PartialEq, Eq)]
pub struct Operation(pub u8);

// A position: a name in the text, numbered 1, 2, .. from the left.
#[derive(Clone, Copy, Debug, PartialEq, Eq)]
pub struct Position(pub u8);
