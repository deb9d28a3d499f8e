// A panel that is written to, by value: each write hands the state on. Not console's machine, which copies the state at each access: the copies would
// be measured too.
use chip::State;
use model::open::open;
use model::write::write;

// The panel's size, its stride in units of eight bytes, and how many bytes each write is further on than the one before.
#[derive(Clone, Copy)]
pub(crate) struct Case {
    pub(crate) width: u32,
    pub(crate) height: u32,
    pub(crate) stride: u32,
    pub(crate) step: u32,
}

#[derive(Drop)]
pub(crate) struct Panel<'a> {
    state: State,
    memory: &'a mut [u8],
    picture: &'a mut [u32],
}

impl<'a> Panel<'a> {
    // From an opening, with a palette of greys stored, and showing memory from byte 0 on. RDColorMode is index 18h.
    pub(crate) fn shown(case: Case, memory: &'a mut [u8], picture: &'a mut [u32]) -> Panel<'a> {
        let opened = open(case.width, case.height, memory, picture);
        let panel = Panel {
            state: opened.state,
            memory,
            picture,
        };
        panel
            .greys()
            .put(0x3000, 0)
            .put(0x3008, case.stride)
            .put_index(0x18, 0x10)
    }

    fn put(self, offset: u32, word: u32) -> Panel<'a> {
        let Panel {
            state,
            memory,
            picture,
        } = self;
        let answer = write(state, 0, offset, 15, word, memory, picture);
        Panel {
            state: answer.state,
            memory,
            picture,
        }
    }

    fn put_index(self, i: u32, byte: u32) -> Panel<'a> {
        self.put(0x4000, i).put(0x4050, byte)
    }

    // The palette in eight bits, and entries 0 to 255, each a grey of its own: three components, each the same byte. RDMiscControl is index 1Eh.
    fn greys(self) -> Panel<'a> {
        let mut panel = self.put_index(0x1E, 2).put(0x4000, 0);
        for byte in 0..256 {
            panel = panel.put(0x4008, byte).put(0x4008, byte).put(0x4008, byte);
        }
        panel
    }

    // 100,000 writes, a step apart; how many dots changed in all.
    pub(crate) fn writes(self, step: u32) -> u32 {
        let Panel {
            mut state,
            memory,
            picture,
        } = self;
        let mut dots = 0u32;
        for i in 0..100000u32 {
            let offset = i.wrapping_mul(step);
            let answer = write(state, 1, offset, 15, word_of(i), memory, picture);
            state = answer.state;
            dots = dots.wrapping_add(answer.changed);
        }
        dots
    }
}

// Write number i: four equal bytes, other than those of the write before and never zero.
fn word_of(i: u32) -> u32 {
    (i % 255 + 1) * 0x01010101
}
