// What each line asks for, by its first word.
use crate::game::Game;
use reading::Stage;

impl Game {
    // A line that could be read as words. Each call has its arm.
    fn obey(&mut self) {
        match self.line.word() {
            b"" => {}
            b"position" => self.begin(),
            b"buffer" => self.want(),
            b"show" => self.show(),
            b"lent" => self.show_lent(),
            b"roster" => self.roster(),
            b"map" => self.map(),
            b"help" => self.help(),
            b"echo" => self.echo(true),
            b"echo off" => self.echo(false),
            b"supply" => self.supply(),
            b"move" => self.move_unit(),
            b"end" => self.end_phase(),
            b"attack" => self.attack(),
            b"retreat" => self.retreat(),
            b"losses" => self.losses(),
            b"advance" => self.advance(),
            b"close" => self.close(),
            _ => self.what(),
        }
    }

    // The line has ended, and the next one begins.
    pub fn finish(&mut self) {
        self.line.close();
        match self.line.stage {
            Stage::Comment => {}
            Stage::Bad => self.what(),
            _ => self.obey(),
        }
        self.line.clear();
        self.number = self.number.wrapping_add(1);
    }
}
