// Prints the roster of the position on standard input.
#![tactic(auto)]

fn main() {
    muster::run();
}
