// Examples of jobs, run: with little memory, with memory that is altered between two records, and with a printer that fails.
#![tactic(auto)]

#[cfg(test)]
mod altered_tests;
#[cfg(test)]
mod jobs;
#[cfg(test)]
mod memory_tests;
#[cfg(test)]
mod reader_tests;
