// The plain data that the definitions and the code of the layout share: why a laying out is refused.
#![tactic(auto)]

// Why nothing is laid out: 3, the nodes are not the lent text's tree; 4, the layout has no room.
#[derive(Clone, Copy)]
pub enum Unlaid {
    NotItsTree,
    NoRoom,
}
