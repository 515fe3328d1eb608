//! Laws of the definition of a run, which hold of every step, leg and run, whatever the code.
//!
//! Each function states a law in its contract and does nothing. `napt_rules` has the definition and
//! most statements, `specs/` has those for translators of one address, and `proofs/` the lemmas.
#![tactic(auto)]

mod dispatching;
mod hosts;
mod legs;
mod numbers;
mod runs;
mod steps;

pub use dispatching::{places_stand_for_legs, right_answers};
pub use hosts::{blocks_have_one_host, runs_name_their_hosts};
pub use legs::{legs_are_local, legs_keep_to_their_way, legs_name_their_binding};
pub use numbers::candidates_are_the_class;
pub use runs::{
    own_states_stay, runs_are_sound, runs_go_on, runs_keep_the_quota, runs_keep_to_blocks,
    saved_runs_go_on, taken_states_are_kept, translators_are_local,
};
pub use steps::{
    no_host_exceeds_its_quota, opening_is_sound, rows_are_in_order, steps_are_local,
    steps_hold_numbers, steps_leave_taken, steps_stay_sound,
};
