// A position that breaks one line, a strength of 61: refused 1.
#![tactic(auto)]

fn main() {
    muster::run();
}
