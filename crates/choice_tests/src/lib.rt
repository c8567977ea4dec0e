// Examples of choices, run: of a kind with two bits, of the seven bridge lines, and of some routed lines.
#![tactic(auto)]

#[cfg(test)]
mod kinds_tests;
mod narrow;
#[cfg(test)]
mod narrow_tests;
#[cfg(test)]
mod told;
