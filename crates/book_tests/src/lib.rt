// Examples of books, tables and histories, run: at their limits, with spoilt areas, with judges of two sorts in one history, and for packets.
#![tactic(auto)]

#[cfg(test)]
mod history_tests;
#[cfg(test)]
mod limits_tests;
#[cfg(test)]
mod packet_tests;
#[cfg(test)]
mod spoilt_tests;
#[cfg(test)]
mod tables;
