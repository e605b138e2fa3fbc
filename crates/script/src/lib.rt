// One line of a script in, one line of output out (01, 'The program rehearse').
#![tactic(auto)]

pub mod lines;
pub mod next;
pub mod parse;
pub mod print;
