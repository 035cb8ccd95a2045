//! The program's output, and the lines that it prints.
#![tactic(auto)]

mod console;
mod lines;
mod names;
mod place;
mod printer;

pub use console::Console;
pub use lines::{
    Counts, ListOfTwo, put_counts, put_difference, put_in_list, put_notices, put_notices_of_list,
    put_refusal, put_refused,
};
pub use names::is_unseen;
pub use place::{Place, Refusal, put_counted, put_place};
pub use printer::Printer;
