// Which positions are accepted: the lines of the documents on units and desk, and the laws that carry them over a change.
#![tactic(auto)]
