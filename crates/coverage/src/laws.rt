//! Laws of coverage over its definitions. The functions do nothing: their contracts are what is proved.

ghost use Rattle.std.specs.Prelude.{◌≡◌, ◌↔◌, ◌⊎◌, ◌<◌, ◌^◌, Bool, true, false, None, List, Contains};
ghost use Rattle.ring_math.specs.Names.{Id, Key, Attempt};
ghost use Rattle.ring_math.specs.Ring.{is_nearer};
ghost use Rattle.ring_math.specs.Members.{InRing, IsPred, IsSucc, IsClosest};
ghost use Rattle.ring_math.specs.Sides.{right_side, left_side, first_or};
ghost use Rattle.coverage.specs.declared.Reach.{Reach};
ghost use Rattle.coverage.specs.Coverage.{covers_of, gap_of, settled};
ghost use Rattle.coverage.specs.declared.Hop.TheVariants.{To};
ghost use Rattle.coverage.specs.Known.{KnowsLinks};
ghost use Rattle.coverage.specs.NextHop.{next_hop_of};
ghost use Rattle.coverage.specs.Links.{Side, IsRing, KeepsFor, members, reach_of};

/// Coverage is being the closest: a member of a set whose links are its true neighbours there, and beside which nobody
/// joins, covers a key exactly where no other member is nearer. Sets of one, ties and arcs of half the circle are among them.
pub fn coverage_law()
    ensures { (xs : List Id) (x left right : Id) (key : Key) → InRing (Contains xs) → key < 2 ^ 128 → Contains xs x →
        IsPred (Contains xs) x left → IsSucc (Contains xs) x right →
        (covers_of (settled x left right) key ≡ true) ↔ IsClosest (Contains xs) key x }
{}

/// A key goes on to a nearer node. Who neither covers it nor has it in a gap has a link that is nearer to it, and where
/// anybody known is nearer than the node, so is the first leaf of one side. So where each link is the node itself or
/// known, the next hop is a node that is known and nearer.
pub fn progress_law()
    ensures link { (r : Reach) (key : Key) → r.me < 2 ^ 128 → r.left < 2 ^ 128 → r.right < 2 ^ 128 → key < 2 ^ 128 →
        covers_of r key ≡ false → gap_of r key ≡ None →
        (is_nearer r.left r.me key ≡ true) ⊎ (is_nearer r.right r.me key ≡ true) }
    ensures leaf { (me : Id) (known : List Id) (y : Id) (key : Key) → InRing (Contains known) → me < 2 ^ 128 → key < 2 ^ 128 →
        (Contains known me → ⊥) → Contains known y → is_nearer y me key ≡ true →
        (is_nearer (first_or me (left_side me known)) me key ≡ true)
        ⊎ (is_nearer (first_or me (right_side me known)) me key ≡ true) }
    ensures hop { (r : Reach) (known : List Id) (key : Key) → KnowsLinks r known → key < 2 ^ 128 →
        covers_of r key ≡ false → gap_of r key ≡ None →
        (y : Id) × (next_hop_of r known key ≡ To y) × Contains known y × (is_nearer y r.me key ≡ true) }
{}

/// One owner for each key, among ready nodes whose links and gates are as `IsRing` says: no two cover it, who covers it
/// is the closest, and the closest covers it or has it in its gap of a joiner that is not ready. Who has it in such a gap
/// is the closest too.
pub fn owner_law()
    ensures one { (ready : Id → Bool) (attempt_of : Id → Attempt) (sides : Id → Bool → Side) (x y : Id) (key : Key) →
        IsRing (members ready) attempt_of sides → key < 2 ^ 128 → members ready x → members ready y →
        covers_of (reach_of x (sides x)) key ≡ true → covers_of (reach_of y (sides y)) key ≡ true → x ≡ y }
    ensures right { (ready : Id → Bool) (attempt_of : Id → Attempt) (sides : Id → Bool → Side) (x : Id) (key : Key) →
        IsRing (members ready) attempt_of sides → key < 2 ^ 128 → members ready x →
        covers_of (reach_of x (sides x)) key ≡ true → IsClosest (members ready) key x }
    ensures owned { (ready : Id → Bool) (attempt_of : Id → Attempt) (sides : Id → Bool → Side) (x : Id) (key : Key) →
        IsRing (members ready) attempt_of sides → key < 2 ^ 128 → IsClosest (members ready) key x →
        (covers_of (reach_of x (sides x)) key ≡ true)
        ⊎ ((j : Id) × KeepsFor (members ready) (reach_of x (sides x)) key j) }
    ensures kept { (ready : Id → Bool) (attempt_of : Id → Attempt) (sides : Id → Bool → Side) (x j : Id) (key : Key) →
        IsRing (members ready) attempt_of sides → key < 2 ^ 128 → members ready x →
        KeepsFor (members ready) (reach_of x (sides x)) key j → IsClosest (members ready) key x }
{}
