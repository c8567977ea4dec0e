// Examples of tables, run: sets of bits, what is laid and refused, and what sound and spoilt areas answer.
#![tactic(auto)]

#[cfg(test)]
mod bits_tests;
#[cfg(test)]
mod laying_tests;
#[cfg(test)]
mod looking_tests;
