// Examples of the two kinds, run: readings of packets, fragments and frames, limits, refusals, admission of ranges.
#![tactic(auto)]

#[cfg(test)]
mod admission_tests;
#[cfg(test)]
mod bridge_tests;
#[cfg(test)]
mod fragment_tests;
#[cfg(test)]
mod packet_tests;
#[cfg(test)]
mod refusals;
#[cfg(test)]
mod rule_tests;
