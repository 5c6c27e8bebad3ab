//! The builder of nets, called as no design has it called: two inputs of one name.
#![tactic(auto)]

#[cfg(test)]
mod inputs;
