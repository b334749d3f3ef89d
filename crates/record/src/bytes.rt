// Bytes with room for the most that a position has.
ghost use Rattle.std.specs.Prelude.{◌≤◌, length};

use reading::{ROOM, Room};

// There are no more bytes than there is room for. A ghost field would say so, but a part of a struct that has one can't be lent out to be
// written to.
#[derive(Drop)]
pub struct Bytes {
    room: Room,
    length: usize,
}

impl Bytes {
    pub fn new() -> Bytes {
        Bytes {
            room: [0; ROOM],
            length: 0,
        }
    }

    pub fn get(&self) -> &[u8] {
        &self.room[..self.length.min(self.room.len())]
    }

    pub fn get_mut(&mut self) -> &mut [u8] {
        let length = self.length.min(self.room.len());
        let room = &mut self.room[..];
        &mut room[..length]
    }

    // These bytes.
    pub fn set(&mut self, bytes: &[u8])
        requires { length bytes.now ≤ ROOM }
    {
        self.length = bytes.len();
        let room = &mut self.room[..];
        room[..bytes.len()].copy_from_slice(bytes);
    }

    // As many bytes as there is room for, up to a length.
    pub fn resize(&mut self, length: usize) {
        self.length = length.min(self.room.len());
    }
}
