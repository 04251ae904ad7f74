#![tactic(auto)]
// What goes over the air: the parts of a write, keys made from the identity key, tags and key proofs; in specs/ also the answers, which `answers`
// writes. Nothing here knows a unit.

use sizes::TAG_SIZE;

pub mod signing;

// The first ten bytes of a write: ID, length and tag. The additional data follows as a part of the write itself.
#[derive(Clone, Copy)]
pub struct Head {
    pub id: u8,
    pub size: u8,
    pub tag: [u8; TAG_SIZE],
}
