//! A block worked by hand, by the definitions that the walk is proved against.

ghost use Rattle.block_net.specs.Sample.{SampleTold};

/// The definitions give a small block, with terms and a log made by hand, the rows and the last trees that it has.
#[tactic(auto, using(crate::proofs::Sampled::sample_told))]
pub fn tells_the_sample()
    ensures { SampleTold }
{}
