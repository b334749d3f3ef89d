// Routes of a retreat: which are legal, and what the search for one finds.
#![tactic(auto)]

// Legal: the route that was sent is legal. Illegal: it is not, and another is. Friends: none is, and friends near the start might be
// pushed. Alone: none is, and nobody near might be pushed. Where none is, it says too whether the route that was sent is a run.
#[derive(Clone, Copy, PartialEq, Eq)]
pub enum Outlook {
    Legal,
    Illegal,
    Friends(bool),
    Alone(bool),
}
