//! What scripts say.
#![tactic(auto)]

mod check_laws;
mod laws;
mod reading_laws;
mod rows;
mod state_rows;

pub use check_laws::{
    commands_keep_scopes, light_commands_fit, making_up_to_the_limit, scripts_keep_checks,
    scripts_keep_scopes, steps_keep_checks, steps_keep_values,
};
pub use laws::{
    choosing_is_one, commands_keep_states, forms_are_trees, interning_is_one, nodes_keep_values,
    read_terms_are_defined, read_terms_are_sound, scripts_have_sorts, scripts_keep_states,
    scripts_keep_values, scripts_read_terms, sound_terms_make_tables, states_have_sorts,
    terms_are_made_once, terms_have_sorts, trees_keep_tokens, weight_bounds_nodes,
};
pub use reading_laws::{
    faults_are_at_tokens, first_fault_is_leftmost, keeping_effects_keep, least_fault_is_answered,
    options_are_set, orders_are_the_eight, parts_faults_are_at_tokens, scripts_go_on,
    trees_are_determined, trees_are_in_order,
};
pub use rows::{codes, first_faults, levels, nodes, places, texts, values};
pub use state_rows::{at_limits, commands, made_nodes, orders, scopes, tables};
