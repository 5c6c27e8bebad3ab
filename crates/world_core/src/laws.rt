//! Laws of worlds and of what is kept.

ghost use Rattle.world_core.specs.World.{SameTrails};
ghost use Rattle.world_core.specs.Seen.{SameWorldsAreSeenAlike, SeenWorldsAreSame, SeenWorldsKeepTrails};
ghost use Rattle.world_core.specs.Kept.{KeptAreLeast};
ghost use Rattle.world_core.specs.Sample.{sample_is_walked, sample_is_kept, places_are_told};

/// Worlds that differ in nothing that can be seen have one trail. Computes nothing.
pub fn same_worlds_same_trails()
    ensures { SameTrails }
{}

/// The trees that the walk of a design numbers are exactly the least set that is kept, each once. Computes nothing.
pub fn kept_are_least()
    ensures { KeptAreLeast }
{}

/// A design of two instances, worked by hand, has the trail that the definitions give it; and some places in one word. Computes nothing.
pub fn walks_the_sample()
    ensures walked { sample_is_walked }
    ensures kept { sample_is_kept }
    ensures places { places_are_told }
{}

/// Worlds that differ in nothing that can be seen are equal as they are seen; what is seen of a world is the same world, and has the
/// same trail. Computes nothing.
pub fn same_worlds_are_seen_alike()
    ensures alike { SameWorldsAreSeenAlike }
    ensures same { SeenWorldsAreSame }
    ensures trails { SeenWorldsKeepTrails }
{}
