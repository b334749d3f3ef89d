// The rule of a retreat: what it answers, what comes of a group, and the laws of both.
#![tactic(auto)]

use ruling::Refusal;

// The answer to a retreat: where it ends, that the group is destroyed, or the rule that refuses it and its place in route and
// pushes. Document 01 names the form: an enum of its own.
#[derive(Clone, Copy, PartialEq, Eq)]
pub enum Retreated {
    To(usize),
    Destroyed,
    Refused(Refusal),
}

// Lost: destroyed, with the part route that was sent. WrongRoute: refused, since a vacant route exists or a part route is due, and what was
// sent is none. WrongPushes: refused, since only pushes serve. Walking and Pushing: it goes.
#[derive(Clone, Copy, PartialEq, Eq)]
pub enum Fate {
    Lost,
    WrongRoute,
    WrongPushes,
    Walking,
    Pushing,
}
