// The law of what is seen.
ghost use Rattle.sight_sketch.specs.Laws.{MetIsSeen};

/// A key that was met is seen until the halves have changed twice, that meeting included. What else is seen no law says: a
/// sketch may answer "yes" to any key.
pub fn sketch_laws()
    ensures { MetIsSeen }
{}
