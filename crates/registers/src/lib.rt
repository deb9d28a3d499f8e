// The registers: where each is, what a write may change of it, what it holds at reset, and where an access leads.
#![tactic(auto)]

pub mod bank; // bank.rt: the columns of the bank's rows, and what a write of a row stores
pub mod indirect; // indirect.rt: the map of the RAMDAC's 256 indices
pub mod offsets; // offsets.rt: the rows of region 0's offsets and of the header's
pub mod place; // place.rt: where an access leads
mod subsystem; // subsystem.rt: the two numbers that are written once
mod table; // table.rt: what every table is asked
