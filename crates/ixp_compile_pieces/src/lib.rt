//! Small pieces of a route server's text: a function for each form of expression, statement and item.
//!
//! What gives several statements adds them to a body, and says which trees stand behind those that were
//! there. The parts of a text (`specs/Items.antt`) have names of their own, so that who puts them together
//! looks into none of them.
#![tactic(auto)]

mod pieces;

pub use pieces::{
    add, add_drop, add_drop_if, add_filter, add_function, add_function_with, add_item, add_nets,
    add_number_test, add_numbers, add_ranges, add_return_if, add_run, add_set_test, add_tell,
    add_when, all_large, both, call, call_with, compared, compared_name, compared_number,
    comparison, fits_pair, int, is_blackhole, is_in, large, master, named, negation, pair_of,
    roa_kind, roas, same_family, steering_pairs, table_kind, triple_of, truth_value,
};
