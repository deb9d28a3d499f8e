// The loop over standard input: lines gathered from chunks of any size, each carried out and answered at once.
use crate::complain::complain_why;
use crate::explain::say_access;
use crate::line::Line;
use crate::machine::{Machine, Told};
use crate::say::Output;
use chip::{Access, Dac};
use std::io::Read;
use std::ops::ControlFlow;

// How lines are answered: in the trace's form, in which nobody asks for a look, or in words.
#[derive(Clone, Copy, PartialEq, Eq)]
pub(crate) enum Form {
    Trace,
    Words,
}

// Where answers go, and in which form.
#[derive(Drop)]
pub(crate) struct Session<'a> {
    pub(crate) out: &'a mut Output,
    pub(crate) form: Form,
}

impl Session<'_> {
    // All of standard input. A last line without its newline is a line; one of no bytes is none. A proved loop has to end, so it counts its turns up
    // to a number that no run reaches.
    pub(crate) fn run(&mut self, machine: &mut Machine) {
        let mut line = Line::new();
        for _ in 0..u64::MAX {
            if self.turn(machine, &mut line).is_break() {
                break;
            }
        }
        if !line.text().is_empty() {
            self.answer_line(machine, line.text());
        }
    }

    // Reads once; breaks off where the input ends or can't be read.
    fn turn(&mut self, machine: &mut Machine, line: &mut Line) -> ControlFlow<()> {
        let mut chunk = [0u8; 4096];
        match self.out.rt.stdin().read(&mut chunk) {
            Ok(0) => ControlFlow::Break(()),
            Ok(n) => {
                self.feed(machine, line, &chunk[..n]);
                ControlFlow::Continue(())
            }
            Err(error) => {
                complain_why(self.out.rt, b"standard input can't be read", error);
                ControlFlow::Break(())
            }
        }
    }

    // One chunk: each line that is whole is answered, and the next one starts.
    fn feed(&mut self, machine: &mut Machine, line: &mut Line, chunk: &[u8]) {
        let mut from = 0;
        while let Some(next) = line.take(chunk, from) {
            self.answer_line(machine, line.text());
            line.clear();
            from = next;
        }
    }

    // A line's answer; a line of another form alters nothing.
    fn answer_line(&mut self, machine: &mut Machine, line: &[u8]) {
        let pointer = machine.state.dac;
        match text::line::read(line, self.form == Form::Words) {
            Some(access) => {
                let told = machine.ask(access);
                self.say(pointer, access, told);
            }
            None => self.say_bad(),
        }
    }

    // An access's answer; the palette's pointer is that before it.
    fn say(&mut self, pointer: Dac, access: Access, told: Told) {
        match self.form {
            Form::Trace => self.say_answer(told),
            Form::Words => say_access(self.out, pointer, access, told),
        }
    }

    // The trace's line for an answer.
    #[tactic(auto, using(text::proofs::WroteLaws::wrote_length, text::proofs::WroteLaws::answer_short))]
    fn say_answer(&mut self, told: Told) {
        let mut line = [0u8; 40];
        let n = text::answer::write(told.status, told.word, told.known, told.changed, &mut line);
        self.out.say(&line[..n]);
    }

    fn say_bad(&mut self) {
        self.out.print(match self.form {
            Form::Trace => "bad\n",
            Form::Words =>
                "bad line: expected is r TARGET OFFSET ENABLES, w TARGET OFFSET ENABLES WORD, or l TARGET OFFSET ENABLES\n",
        });
    }
}
