// What a step of a retreating group, or of a stack that it pushes, finds in a hex.
#![tactic(auto)]

// Shut: nobody may go there. Free: a hex that bears, and vacant. Loose: a hex that bears, held by a stack that can be pushed.
#[derive(Clone, Copy)]
pub enum Stand {
    Shut,
    Free,
    Loose,
}
