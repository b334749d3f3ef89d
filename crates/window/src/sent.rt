// Whether the route that was sent is legal, over a window of the hexes round its start that was painted before.
ghost use Rattle.std.specs.Prelude.{◌≡◌, ◌<◌, ◌≤◌};
ghost use Rattle.position.specs.Board.{board};
ghost use Rattle.routes.specs.Legal.{steps_to, legal};

use crate::Painted;

impl Painted<'_> {
    // Whether a run may go on from hex `a` to hex `x` after `i` steps.
    #[tactic(auto, unfolding(routes::specs::Legal::steps_to))]
    fn steps_to(&self, i: usize, a: usize, x: usize) -> bool
        requires { i < 3 }
        ensures { result ≡ steps_to (board self.now.p.now) self.now.f self.now.start i a x }
    {
        if !ground::joined(self.p, self.v, a, x) {
            return false;
        }
        self.enters(i, x)
    }

    // Whether a route is a legal one of n hexes.
    pub fn is_legal(&self, n: usize, route: &[u16]) -> bool
        requires { n ≤ 3 }
        ensures { result ≡ legal (board self.now.p.now) self.now.f self.now.start n route.now }
    {
        if route.len() != n {
            return false;
        }
        let mut a = self.start;
        for (i, &to) in route.iter().enumerate() {
            let x = to as usize;
            if !self.steps_to(i, a, x) {
                return false;
            }
            a = x;
        }
        true
    }
}
