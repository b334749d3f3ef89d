// The map's size.
ghost use Rattle.std.specs.Prelude.{◌≤◌};

// It is 64 each way at most.
#[derive(Clone, Copy)]
pub struct Size {
    pub width: usize,
    pub height: usize,
    ghost width_fits: { width ≤ 64 },
    ghost height_fits: { height ≤ 64 },
}

impl Size {
    pub fn hexes(self) -> usize
        ensures { result ≤ 4096 }
    {
        self.width * self.height
    }
}
