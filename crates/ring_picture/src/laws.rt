//! Laws of the ring's picture over its definitions. The functions do nothing: their contracts are what is proved.

ghost use Rattle.std.specs.Prelude.{◌≡◌, ◌↔◌, Some, Contains};
ghost use Rattle.ring_math.specs.Names.{Id, Key};
ghost use Rattle.ring_math.specs.Members.{IsClosest};
ghost use Rattle.overlay_rules.specs.Ready.{IsReadyIn};
ghost use Rattle.overlay_rules.specs.Record.{Setting, World};
ghost use Rattle.ring_picture.specs.Seats.{owner_of, ready_ids, seats_of};

/// The nodes that the picture shows as ready, and draws links of, are those that are ready in the world.
pub fn ready_are_ready()
    ensures { (g : Setting) (w : World) (x : Id) → Contains (ready_ids (seats_of w.states g.nodes)) x ↔ IsReadyIn g w x }
{}

/// The arrow of a key leads to the ready node that is closest to it, in the sense of the law of one owner.
pub fn owners_are_closest()
    ensures { (g : Setting) (w : World) (key : Key) (y : Id) → owner_of (ready_ids (seats_of w.states g.nodes)) key ≡ Some y → IsClosest (IsReadyIn g w) key y }
{}
