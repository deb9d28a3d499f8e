// The picture: dots' words by the rules, and the redraw of those that change and of no others.
#![tactic(auto)]

mod dot; // dot.rt: one dot's word, and one dot's store
mod entry; // entry.rt: the dots that show one palette entry
pub mod poke; // poke.rt: one byte of memory, and the dots that show it
pub mod redraw; // redraw.rt: a redraw for a change of view, and for a palette entry
mod row; // row.rt: one row
mod rows; // rows.rt: every dot of the picture
mod span; // span.rt: the rows that hold a byte
pub mod view; // view.rt: what of a bank the picture reads, and its table of words
