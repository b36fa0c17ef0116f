//! Tests of the text form: every record form there and back, what is refused, and whole texts and blocks.

#![tactic(auto)]

#[cfg(test)]
mod forms;
#[cfg(test)]
mod refused;
#[cfg(test)]
mod whole;
