//! The laws of what is read and written, each of the crate that proves it.

pub use hprof_dump::laws::dump_reads_back;
pub use hprof_engine::laws::{
    a_part_states_one_thing, equal_dumps_equal_facts, joined_dumps_join, one_text_is_made_of_parts,
    order_repetition_and_cutting_do_not_matter, parts_come_to_one_thing,
    salvage_of_sound_parts_is_joining, what_comes_to_the_same_is_made_into_the_same,
    what_is_saved_comes_to_one_thing, what_is_saved_stands_before_the_fault,
};
pub use hprof_reports::laws::one_check;
pub use hprof_stream::laws::{
    a_longer_input, a_smaller_limit, no_fault_exactly_in_the_grammar, one_first_fault,
};
