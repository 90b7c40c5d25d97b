//! The texts of the program: the grammar of its input with the reader, and the printed answers.
#![tactic(auto)]

mod fault;
mod job;
mod layout;
mod limits;
mod lists;
mod number;
mod planes;
mod print;
mod reader;
mod reading;
mod refusal;
mod sums;
mod symbol;

pub use fault::TextFault;
pub use ff_basis::order_basis;
pub use job::{Job, MAX_BYTES, RawElem, read_input};
pub use layout::Mode;
pub use limits::{MAX_ELEM_X_DEGREE, MAX_ELEM_Y_DEGREE};
pub use lists::{print_elem, print_list, print_made, print_order};
pub use number::read_number;
pub use print::{print_fault, print_poly};
pub use refusal::print_refusal;
