// The calls. Each has a method here that reads the line's numbers, and an arm in `orders`.
use crate::game::Game;
use march::Moved;
use ruling::Refusal;
use wording::Call;

fn moved(answer: Moved) -> Result<(), Refusal> {
    match answer {
        Moved::Done => Ok(()),
        Moved::Refused(refusal) => Err(refusal),
    }
}

impl Game {
    pub fn supply(&mut self) {
        let &[nationality] = self.line.numbers() else {
            return self.what();
        };
        self.buffer.lend(self.position.get());
        let answer = rules::supply(
            self.position.get(),
            usize::from(nationality),
            self.buffer.lent.get_mut(),
        );
        self.answers.plain(Call::Supply, answer);
    }

    pub fn move_unit(&mut self) {
        let [unit, path @ ..] = self.line.numbers() else {
            return self.what();
        };
        self.buffer.lend_none();
        let unit = usize::from(*unit);
        let answer = rules::move_unit(self.position.get_mut(), unit, path);
        self.answers.plain(Call::Move, moved(answer));
    }

    pub fn end_phase(&mut self) {
        let [] = self.line.numbers() else {
            return self.what();
        };
        self.buffer.lend(self.position.get());
        let answer = rules::end_phase(self.position.get_mut(), self.buffer.lent.get_mut());
        self.answers.ended(answer, self.position.get());
    }

    pub fn attack(&mut self) {
        let [target, die, units @ ..] = self.line.numbers() else {
            return self.what();
        };
        self.buffer.lend(self.position.get());
        let answer = rules::attack(
            self.position.get_mut(),
            usize::from(*target),
            units,
            usize::from(*die),
            self.buffer.lent.get_mut(),
        );
        self.answers.fought(answer, self.position.get());
    }

    pub fn retreat(&mut self) {
        let (route, pushes) = self.line.parts();
        let [hex, steps @ ..] = route else {
            return self.what();
        };
        self.buffer.lend_none();
        let hex = usize::from(*hex);
        let answer = rules::retreat(self.position.get_mut(), hex, steps, pushes);
        self.answers.retreated(answer, route, pushes);
    }

    pub fn losses(&mut self) {
        self.buffer.lend_none();
        let units = self.line.numbers();
        let answer = rules::losses(self.position.get_mut(), units);
        self.answers.plain(Call::Losses, answer);
    }

    pub fn advance(&mut self) {
        let &[unit, hex] = self.line.numbers() else {
            return self.what();
        };
        self.buffer.lend_none();
        let answer = rules::advance(self.position.get_mut(), usize::from(unit), usize::from(hex));
        self.answers.plain(Call::Advance, answer);
    }

    pub fn close(&mut self) {
        let [] = self.line.numbers() else {
            return self.what();
        };
        self.buffer.lend_none();
        let answer = rules::close(self.position.get_mut());
        self.answers.plain(Call::Close, answer);
    }
}
