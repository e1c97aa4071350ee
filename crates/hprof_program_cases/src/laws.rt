//! The laws of the engine and the reports.

use hprof_ask::{Reporting, laws as ask_laws};
use hprof_dump::laws as dump101_laws;
use hprof_engine::{Dump, Dump101};
use hprof_naming::laws as naming_laws;
use hprof_questions::{HeapReport, Report, laws as questions_laws};
use hprof_tool::laws;

/// Calls each law of the engine, of the reports, of salvage, of names and of the 1.0.1 dump.
pub fn call_laws() {
    laws::a_part_states_one_thing();
    laws::dump_reads_back();
    laws::equal_dumps_equal_facts();
    laws::parts_come_to_one_thing();
    laws::order_repetition_and_cutting_do_not_matter();
    laws::joined_dumps_join();
    laws::one_check();
    laws::salvage_of_sound_parts_is_joining();
    laws::what_is_saved_comes_to_one_thing();
    laws::what_is_saved_stands_before_the_fault();
    laws::one_text_is_made_of_parts(&Dump);
    laws::one_text_is_made_of_parts(&Reporting {
        report: Report::Heap(HeapReport::Check),
    });
    laws::one_text_is_made_of_parts(&Dump101);
    laws::what_comes_to_the_same_is_made_into_the_same(&Dump);
    laws::what_comes_to_the_same_is_made_into_the_same(&Dump101);
    dump101_laws::dump101_reads_back();
    dump101_laws::equal_dumps101_equal_facts();
    naming_laws::one_naming();
    naming_laws::plain_words_mean_themselves();
    naming_laws::descriptors_mean_classes();
    naming_laws::array_words_mean_arrays();
    naming_laws::dots_count_as_slashes();
    naming_laws::all_pairs_count();
    ask_laws::a_report_is_one_text();
    questions_laws::a_line_asks_one_thing();
    ask_laws::answers_over_parts_are_one_text();
}
