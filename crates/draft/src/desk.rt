// The desk as it is told.
ghost use Rattle.std.specs.Prelude.{◌<◌};

use crate::Draft;
use crate::bytes::{low, set_word};
use position::layout;

impl Draft {
    // Byte `f` of the desk.
    pub fn set_desk(&mut self, f: usize, x: usize)
        requires { f < 60 }
    {
        self.desk[f] = low(x);
    }

    pub fn set_need(&mut self, need: usize) {
        set_word(&mut self.desk, layout::NEED, need);
    }

    pub fn set_player(&mut self, force: usize, player: usize) {
        if force < layout::FORCES {
            self.set_desk(layout::PLAYERS + force, player);
        }
    }

    // One route more. There is room for six.
    pub fn add_route(&mut self) {
        if self.routes < layout::ROUTE_COUNT {
            self.routes += 1;
        }
    }

    // Hex `j` of the route that is being told, which is the last.
    pub fn set_route(&mut self, j: usize, hex: usize) {
        if j < layout::ROUTE_HEXES {
            let route = self.routes.saturating_sub(1);
            let at = layout::ROUTES + layout::ROUTE_SIZE * route + layout::PLACE_SIZE * j;
            set_word(&mut self.desk, at, hex);
        }
    }
}
