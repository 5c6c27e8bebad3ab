//! Tests of conditions: a table of texts, each with what is told of it. Offsets and values were worked out by hand.
#![tactic(auto)]

#[cfg(test)]
mod conditions;
