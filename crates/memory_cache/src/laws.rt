// Laws of the pairs in memory, for the layer above.
ghost use Rattle.memory_cache.specs.Laws.{PutKeepsAll, GetKeepsAll, RemoveKeepsAll, PutKeepsBounds, GetKeepsBounds, RemoveKeepsBounds, FoundIsHeld, PushedOutWasHeld, PushedOutIsLeaving};

/// What passes a test of all pairs in memory still does after each call, if a pair that is put passes it.
pub fn memory_keeps_all()
    ensures put { PutKeepsAll }
    ensures got { GetKeepsAll }
    ensures removed { RemoveKeepsAll }
{}

/// Each call keeps the keys distinct and their number within the capacity.
pub fn memory_keeps_bounds()
    ensures put { PutKeepsBounds }
    ensures got { GetKeepsBounds }
    ensures removed { RemoveKeepsBounds }
{}

/// A value that is found is held under its key.
pub fn found_is_held()
    ensures { FoundIsHeld }
{}

/// A pair that a put pushes out was held, and has another key than the one that was put.
pub fn pushed_out_was_held()
    ensures { PushedOutWasHeld }
{}

/// A put pushes out the pair that leaves for its key: none if the key has a pair or there is room, else the one that was used least
/// recently.
pub fn pushed_out_is_leaving()
    ensures { PushedOutIsLeaving }
{}
