// Answers a game record on standard input, a line for each call. Its stored run is a record of generated cases.
#![tactic(auto)]

fn main(rt: HostRuntime) {
    record::play(&rt);
}
