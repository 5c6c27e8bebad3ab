//! Orders and cycles of graphs that no design has. What is wanted stands here case by case, worked by hand.
#![tactic(auto)]

#[cfg(test)]
mod graphs;
