// The whole system (01, 'Rehearsal'): the setup, one step of a state, and a whole run.
#![tactic(auto)]

pub mod run;
pub mod setup;
pub mod step;
