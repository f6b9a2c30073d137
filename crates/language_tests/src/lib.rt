//! Names, lines, messages, locks and the words of the command, tried.
#![tactic(auto)]

#[cfg(test)]
mod dtm_command_tests;
#[cfg(test)]
mod net_wire_tests;
#[cfg(test)]
mod record_locks_tests;
#[cfg(test)]
mod script_lang_tests;
#[cfg(test)]
mod table_keys_tests;
#[cfg(test)]
mod transcript_tests;
#[cfg(test)]
mod vms_base_tests;
