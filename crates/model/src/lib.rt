// The model: an opening, and the three operations of 02, C-12: a read, a write and a look. In place the parts of a state are lent one by one, as the C
// interface lends them, and not as a struct: what a function is not lent is not altered; by value a state goes in and a state comes out. An access comes
// as its numbers, as C hands them in. What a read and a look are lent has one lifetime, written out: the definitions of a call (specs/Calls of calls) count it.
#![tactic(auto)]

pub mod sound; // sound.rt: what makes a state a state
mod status; // status.rt: the refusals after 1, in their order
mod seen; // seen.rt: what a read or a look sees
mod written; // written.rt: a write at a place, in place
mod window; // window.rt: a write through an aperture
mod opening; // opening.rt: the parts of an opening
pub mod sure; // sure.rt: a read and a write in place, for a state that is known to be one
pub mod lent; // lent.rt: an opening, a read, a write and a look in place
pub mod read; // read.rt: a read by value
pub mod write; // write.rt: a write by value
pub mod look; // look.rt: a look by value
pub mod open; // open.rt: an opening by value
