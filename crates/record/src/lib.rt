// A game record, read from standard input a line each; each call is answered with one line.
#![tactic(auto)]

mod answers;
mod buffer;
mod bytes;
mod calls;
mod echo;
mod feed;
mod game;
mod lines;
mod orders;

// Plays the record on standard input.
pub fn play(rt: &impl Input) {
    feed::feed(&mut rt.reader());
}
