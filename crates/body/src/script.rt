// A script is a body: it asks for its steps one by one.
ghost use Rattle.std.specs.Prelude.{◌≡◌};
ghost use Rattle.body.specs.Scripts.{script_asks, script_begin, script_left, script_len, script_reach, script_taken, script_told, step_asks};
ghost use Rattle.body.specs.Scripted.{script_lawful};

use super::body::Body;
use super::request::Request;
use super::steps::{Script, ScriptStep};

impl Body for Script {
    const KIND: u32 = 3;

    ghost KIND = { 3 };

    ghost asks = { script_asks };

    ghost told = { script_told };

    ghost taken = { script_taken };

    ghost begin = { script_begin };

    ghost left = { script_left };

    ghost reach = { script_reach };

    ghost len = { script_len };

    ghost lawful = { script_lawful };

    fn request(&self) -> Request {
        match self.steps.get(self.done) {
            Some(step) => step.request(self.carried).kept(self.reach),
            None => Request::End,
        }
    }

    fn tell(&mut self, amount: i64) {
        if let Request::Read(_) = self.request() {
            self.done += 1;
            self.carried = amount;
        }
    }

    fn took(&mut self) {
        if let Request::Write(_, _) = self.request() {
            self.done += 1;
        }
    }

    fn restart(&mut self) {
        self.done = 0;
        self.carried = 0;
    }

    fn reach_of(&self) -> usize {
        self.reach as usize
    }

    fn length_of(&self) -> usize {
        self.steps.len()
    }
}

impl ScriptStep {
    fn request(self, carried: i64) -> Request
        ensures { result ≡ step_asks carried self }
    {
        match self {
            ScriptStep::Read { cell } => Request::Read(cell as usize),
            ScriptStep::Put { cell, amount } => Request::Write(cell as usize, amount),
            ScriptStep::Carry { cell } => Request::Write(cell as usize, carried),
        }
    }
}
