// Numbers in one byte and in two, the low byte first.
ghost use Rattle.std.specs.Prelude.{◌+◌, ◌<◌, length};

pub fn low(x: usize) -> u8 {
    (x & 0xff) as u8
}

pub fn set_word(bytes: &mut [u8], at: usize, x: usize)
    requires { at + 1 < length bytes.old }
{
    bytes[at] = low(x);
    bytes[at + 1] = low(x / 256);
}
