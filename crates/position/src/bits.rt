// Sums of 1, 2, 4 and 8, each there or not: the marks of a unit and the flags of a hex.
ghost use Rattle.std.specs.Prelude.{◌≡◌, ◌<◌, ◌≤◌};
ghost use Rattle.position.specs.Bits.{has, with, without};

pub const TRIED: usize = 1;

pub const SUPPLIED: usize = 2;

pub const MOVED: usize = 4;

pub const FOUGHT: usize = 8;

// Marks are below this.
pub const MARKS_END: usize = 16;

pub const PORT: usize = 1;

pub const URBAN: usize = 2;

pub const SUPPLY: usize = 4;

pub fn has(k: usize, m: usize) -> bool
    requires { 0 < k }
    ensures { result ≡ has k m }
{
    m / k % 2 == 1
}

pub fn with(k: usize, m: usize) -> usize
    requires { (0 < k) × (k ≤ 8) × (m < 256) }
    ensures { result ≡ with k m }
{
    m % k + k + m / (2 * k) * (2 * k)
}

pub fn without(k: usize, m: usize) -> usize
    requires { (0 < k) × (k ≤ 8) × (m < 256) }
    ensures { result ≡ without k m }
{
    m % k + m / (2 * k) * (2 * k)
}
