//! Tests of lists, slots, numbers, words, values, links, the table of opcodes and the made texts, by worked rows.
#![tactic(auto)]

#[cfg(test)]
mod instance_index_tests;
#[cfg(test)]
mod link_graph_tests;
#[cfg(test)]
mod lists_tests;
#[cfg(test)]
mod made_texts_tests;
#[cfg(test)]
mod opcode_table_tests;
#[cfg(test)]
mod scratch_number_tests;
#[cfg(test)]
mod scratch_values_tests;
#[cfg(test)]
mod script_machine_tests;
#[cfg(test)]
mod script_words_tests;
