//! Distances on the circle.

ghost use Rattle.std.specs.Prelude.{◌≡◌, ◌≢◌, ◌<◌, ◌^◌, ℕ, true, false};
ghost use Rattle.ring_math.specs.Ring.{cw_of, dist_of, is_between, is_nearer};

use crate::id::Id;

/// The clockwise distance from `a` to `b`: `(b - a) mod 2^128`.
#[tactic(auto, unfolding(crate::specs::Ring::cw_of))]
pub fn cw(a: Id, b: Id) -> u128
    ensures { result ≡ cw_of a b }
{
    b.0.wrapping_sub(a.0)
}

/// The distance between `a` and `b`, the shorter way round.
pub fn dist(a: Id, b: Id) -> u128
    ensures { result ≡ dist_of a b }
{
    cw(a, b).min(cw(b, a))
}

/// Whether `x` is met strictly between `a` and `b`, going clockwise. With `a = b` this is every `x` but `a`.
#[tactic(auto, unfolding(crate::specs::Ring::is_between))]
pub fn between(a: Id, x: Id, b: Id) -> bool
    ensures { result ≡ is_between a x b }
{
    x != a && (a == b || x != b && cw(a, x) < cw(a, b))
}

/// Whether `a` is nearer to the key than `b`. Of two at one distance it is the one counterclockwise of the key.
#[tactic(auto, unfolding(crate::specs::Ring::is_nearer))]
pub fn nearer(a: Id, b: Id, key: Id) -> bool
    ensures { result ≡ is_nearer a b key }
{
    let from_a = dist(a, key);
    let from_b = dist(b, key);
    from_a < from_b || from_a == from_b && cw(a, key) < cw(b, key)
}

/// For each key, `nearer` is a strict total order on different identifiers: a law over its definition.
#[tactic(auto, using(crate::proofs::Nearness::order_laws))]
pub fn order_law()
    ensures irreflexive { (a key : ℕ) → is_nearer a a key ≡ false }
    ensures transitive { (a b c key : ℕ) → is_nearer a b key ≡ true → is_nearer b c key ≡ true → is_nearer a c key ≡ true }
    ensures total { (a b key : ℕ) → a < 2 ^ 128 → b < 2 ^ 128 → key < 2 ^ 128 → a ≢ b → is_nearer a b key ≡ false → is_nearer b a key ≡ true }
{}
