// For bench/run, and no part of the library: a run over a list of accesses after one test of the state, and a read and a write by value.
#![tactic(auto)]

ghost use Rattle.std.specs.Prelude.{◌≡◌, ◌+◌, ◌*◌, ◌<◌, ◌^◌, get_or};
ghost use Rattle.chip.specs.Access.{reads, writes};
ghost use Rattle.chip.specs.Parts.{state_of};
ghost use Rattle.chip.specs.Step.{step_of, Gives};
ghost use Rattle.bench_list.specs.Run.{put_answer, Ones, Runs};

use bits::put_at;
use chip::{Answer, DAC_BYTES, ROWS, Refusal, State};
use model::sure::{sure_read, sure_write};

// The word at k, and 0 past the end. Its own beside registers' held, which is of a bank's column.
fn word_at(list: &[u32], k: usize) -> u32
    ensures { result ≡ get_or list.now k 0 }
{
    list.get(k).copied().unwrap_or(0)
}

// The answer of access k of n, in its four places. By index and not by chunks: put_answer says where each word is.
fn put_answer(out: &mut [u32], n: usize, k: usize, status: u32, word: u32, known: u32, changed: u32)
    requires { 3 * n + k < 2 ^ 64 }
    ensures { out.new ≡ put_answer n k status word known changed out.old }
{
    put_at(out, k, status);
    put_at(out, n + k, word);
    put_at(out, 2 * n + k, known);
    put_at(out, 3 * n + k, changed);
}

// Access k of the list, and its answer. The parts come one by one, as bench_run is lent them by C.
fn one(
    width: u32,
    height: u32,
    fitted: u32,
    once: &mut u32,
    values: &mut [u32; ROWS],
    knowns: &mut [u32; ROWS],
    palette: &mut [u32; 256],
    dac: &mut [u8; DAC_BYTES],
    list: &[u32],
    k: usize,
    n: usize,
    answers: &mut [u32],
    memory: &mut [u8],
    picture: &mut [u32],
)
    requires { (5 * k + 4 < 2 ^ 64) × (3 * n + k < 2 ^ 64) }
    ensures { Ones (state_of width height fitted once.old values.old knowns.old palette.old dac.old) memory.old picture.old list.now n k answers.old
        (state_of width height fitted once.new values.new knowns.new palette.new dac.new) memory.new picture.new answers.new }
{
    let at = 5 * k;
    let target = word_at(list, at);
    let offset = word_at(list, at + 1);
    let enables = word_at(list, at + 3);
    if word_at(list, at + 2) == 0 {
        let o = *once;
        let r = sure_read(
            width, height, fitted, o, values, knowns, palette, dac, target, offset, enables,
            memory, picture,
        );
        put_answer(answers, n, k, r.status, r.word, r.known, 0);
    } else {
        let w = sure_write(
            width,
            height,
            fitted,
            once,
            values,
            knowns,
            palette,
            dac,
            target,
            offset,
            enables,
            word_at(list, at + 4),
            memory,
            picture,
        );
        put_answer(answers, n, k, w.status, 0, 0, w.changed);
    }
}

// Five words an access: target, offset, 0 for a read and any other number for a write, enables, word. The answers lie apart: all statuses, all words, all known
// masks, all changed counts. 1: not a state, tested once; 2: a list or a room of the wrong length; nothing is altered then.
#[unsafe(no_mangle)]
pub extern "C" fn bench_run(
    width: u32,
    height: u32,
    fitted: u32,
    once: &mut u32,
    values: &mut [u32; ROWS],
    knowns: &mut [u32; ROWS],
    palette: &mut [u32; 256],
    dac: &mut [u8; DAC_BYTES],
    list: &[u32],
    answers: &mut [u32],
    memory: &mut [u8],
    picture: &mut [u32],
) -> u32
    ensures { Runs (state_of width height fitted once.old values.old knowns.old palette.old dac.old) memory.old picture.old list.now answers.old result
        (state_of width height fitted once.new values.new knowns.new palette.new dac.new) memory.new picture.new answers.new }
{
    let o = *once;
    let d = palette::dac::dac_of(dac);
    if !model::sound::is_state(width, height, fitted, o, values, knowns, palette, d) {
        return u32::from(Refusal::NotState);
    }
    let n = list.len() / 5;
    if list.len() % 5 != 0 || answers.len() / 4 != n || answers.len() % 4 != 0 {
        return u32::from(Refusal::Length);
    }
    for k in 0..n {
        one(
            width, height, fitted, once, values, knowns, palette, dac, list, k, n, answers, memory,
            picture,
        );
    }
    0
}

// By value; an access comes as its numbers, as C hands them in.
#[unsafe(no_mangle)]
pub extern "C" fn bench_read(
    s: State,
    target: u32,
    offset: u32,
    enables: u32,
    memory: &[u8],
    picture: &[u32],
) -> Answer
    ensures { Gives (step_of s memory.now picture.now (reads target offset enables)) result memory.now picture.now }
{
    model::read::read(s, target, offset, enables, memory, picture)
}

#[unsafe(no_mangle)]
pub extern "C" fn bench_write(
    s: State,
    target: u32,
    offset: u32,
    enables: u32,
    word: u32,
    memory: &mut [u8],
    picture: &mut [u32],
) -> Answer
    ensures { Gives (step_of s memory.old picture.old (writes target offset enables word)) result memory.new picture.new }
{
    model::write::write(s, target, offset, enables, word, memory, picture)
}
