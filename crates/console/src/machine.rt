// A machine, and what it answers.
ghost use Rattle.std.specs.Prelude.{◌≡◌};
ghost use Rattle.chip.specs.Access.{reads, writes, looks};
ghost use Rattle.chip.specs.Step.{step_of, answered, Gives};
ghost use Rattle.chip.specs.declared.Kind.TheVariants.{Read, Write, Look};

use chip::{Access, Answer, Kind, State};

// A state, and the buffers that it is lent.
#[derive(Drop)]
pub struct Machine<'a> {
    pub state: State,
    pub memory: &'a mut [u8],
    pub picture: &'a mut [u32],
}

// What an access answers, beside the state. The status is a number, as the model answers it and the trace prints it.
#[derive(Clone, Copy)]
pub struct Told {
    pub status: u32,
    pub word: u32,
    pub known: u32,
    pub changed: u32,
}

impl Machine<'_> {
    // Carries an access out. The model takes a state by value: it is handed a copy, written out, since State is not Copy.
    pub fn ask(&mut self, a: Access) -> Told
        ensures read { a.kind ≡ Read → Gives (step_of self.old.state self.old.memory.now self.old.picture.now (reads a.target a.offset a.enables)) (answered result.status result.word result.known result.changed self.new.state) self.new.memory.now self.new.picture.now }
        ensures write { a.kind ≡ Write → Gives (step_of self.old.state self.old.memory.now self.old.picture.now (writes a.target a.offset a.enables a.word)) (answered result.status result.word result.known result.changed self.new.state) self.new.memory.now self.new.picture.now }
        ensures look { a.kind ≡ Look → Gives (step_of self.old.state self.old.memory.now self.old.picture.now (looks a.target a.offset a.enables)) (answered result.status result.word result.known result.changed self.new.state) self.new.memory.now self.new.picture.now }
    {
        let Access {
            target,
            offset,
            kind,
            enables,
            word,
        } = a;
        let s = State { ..self.state };
        let (memory, picture) = (&mut *self.memory, &mut *self.picture);
        match kind {
            Kind::Read => {
                let answer = model::read::read(s, target, offset, enables, memory, picture);
                self.go_on(answer)
            }
            Kind::Write => {
                let answer = model::write::write(s, target, offset, enables, word, memory, picture);
                self.go_on(answer)
            }
            Kind::Look => {
                let reply = model::look::look(s, target, offset, enables, memory, picture);
                Told {
                    status: reply.status,
                    word: reply.word,
                    known: reply.known,
                    changed: 0,
                }
            }
        }
    }

    // From the state that an answer gives.
    fn go_on(&mut self, answer: Answer) -> Told
        ensures told { answered result.status result.word result.known result.changed self.new.state ≡ answer }
        ensures memory { self.new.memory.now ≡ self.old.memory.now }
        ensures picture { self.new.picture.now ≡ self.old.picture.now }
    {
        let told = Told {
            status: answer.status,
            word: answer.word,
            known: answer.known,
            changed: answer.changed,
        };
        self.state = answer.state;
        told
    }
}
