// The trace program's text: a line read, an answer written, and a line gathered from chunks of input. Functions on byte slices; no input, no output.
#![tactic(auto)]

pub mod find; // find.rt: the first place of a byte
mod number; // number.rt: a field that is a number
pub mod line; // line.rt: what a line asks for
mod numeral; // numeral.rt: numbers as text
pub mod answer; // answer.rt: the line that an answer is printed as
pub mod gather; // gather.rt: a line's bytes, chunk by chunk
pub mod panel; // panel.rt: a panel's size as an argument
pub mod shown; // shown.rt: unknown bits and dots, for people

// How far a chunk went: how many bytes of the line are held, and where in the chunk to go on behind its newline; None where the chunk is used up
// before one, so that the line goes on in the next chunk.
#[derive(Clone, Copy)]
pub struct Taken {
    pub held: usize,
    pub next: Option<usize>,
}

// A panel's size, in dots.
#[derive(Clone, Copy)]
pub struct Size {
    pub width: u32,
    pub height: u32,
}
