// Standard input and output for the programs. Of the libraries this one alone is handed the runtime, which rests on what the kit states of the C library.
#![tactic(auto)]

pub mod say; // say.rt: texts and numbers to standard output
pub mod complain; // complain.rt: messages on standard error
pub mod program; // program.rt: what every program begins and ends with
pub mod clock; // clock.rt: processor time
pub mod names; // names.rt: the registers' names
pub mod machine; // machine.rt: a machine, and what it answers
mod explain; // explain.rt: one readable line for an access
mod line; // line.rt: a line of standard input, gathered from chunks
mod session; // session.rt: the loop over standard input
mod ppm; // ppm.rt: a picture as a file
mod target; // target.rt: where a panel's picture goes
mod rooms; // rooms.rt: a panel in rooms of the program's own
pub mod trace; // trace.rt: the trace program
pub mod panel; // panel.rt: the programs over a panel of any size
