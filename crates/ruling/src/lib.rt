// The language of rulings stands in specs/, with its laws in proofs/. The code shares why a call is refused.
#![tactic(auto)]

ghost use Rattle.std.specs.Prelude.{◌≡◌};

pub mod refusal;

pub use refusal::Refusal;
