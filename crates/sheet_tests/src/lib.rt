//! Tests of tables that a host damaged: each is refused with `Unsound` exactly while it is not sound.

#![tactic(auto)]

#[cfg(test)]
mod built;
#[cfg(test)]
mod cases;
#[cfg(test)]
mod damage;
#[cfg(test)]
mod unsound;
