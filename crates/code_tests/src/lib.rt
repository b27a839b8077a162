//! Tests that need code: what no clause says and no row of a program shows. Each module has those of one crate.
#![tactic(auto)]

#[cfg(test)]
mod desk_tests;
#[cfg(test)]
mod record_text_tests;
#[cfg(test)]
mod wire_base_tests;
