// How far the replay is, and what each line of the text makes of it.
use crate::counted::Tally;
use crate::scene::Scene;
use crate::statement::{Call, Statement};
use std::io;

#[derive(Drop)]
pub struct State {
    pub scene: Scene,
    pub tally: Tally,
}

impl State {
    pub fn start() -> State {
        State {
            scene: Scene::empty(),
            tally: Tally::default(),
        }
    }

    // An empty line and a comment say nothing.
    pub fn take_line(&mut self, rt: &impl Print, line: &[u8]) -> io::Result<()> {
        self.tally.count_line();
        if let [] | [b'#', ..] = line {
            return Ok(());
        }
        match str::from_utf8(line).ok().and_then(Statement::read) {
            Some(statement) => self.take_statement(rt, statement),
            None => self.tally.tell_bad_line(rt),
        }
    }

    pub fn take_bad_line(&mut self, rt: &impl Print) -> io::Result<()> {
        self.tally.count_line();
        self.tally.tell_bad_line(rt)
    }

    fn take_statement(&mut self, rt: &impl Print, statement: Statement) -> io::Result<()> {
        match statement {
            Statement::Caps(words) => self.scene.set_caps(&words),
            Statement::Hart(words) => self.scene.set_hart(&words),
            Statement::Listed { place, bits } => self.scene.list(place, bits),
            Statement::Call(call) => self.take_call(rt, &call)?,
        }
        Ok(())
    }

    fn take_call(&mut self, rt: &impl Print, call: &Call) -> io::Result<()> {
        match self.scene.replay(call) {
            Some(compared) => {
                self.tally.count_call(call.entry, self.scene.has_listed());
                self.tally.tell_compared(rt, call.entry, compared)
            }
            None => self.tally.tell_bad_line(rt),
        }
    }
}
