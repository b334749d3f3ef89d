// The roster's example with unit 1 destroyed: the line to the supply hex is open.
#![tactic(auto)]

fn main() {
    muster::run();
}
