// Plays the samples of examples/, one after the other.
#![tactic(auto)]

fn main(rt: HostRuntime) {
    record::play(&rt);
}
