//! Which keys a node covers, and which it keeps for one that joins beside it.
#![tactic(auto)]

ghost use Rattle.std.specs.Prelude.{◌≡◌, ◌↔◌, [], IsNone, IfSome};
ghost use Rattle.coverage.specs.declared.Reach.{Reach};
ghost use Rattle.coverage.specs.Closest.{IsFirstClosest};
ghost use Rattle.coverage.specs.Coverage.{covers_of, gap_of, gap_for, in_gap_of, taken_of, without, right_end, left_end, in_arcs, is_alone};

mod laws;

pub use laws::{coverage_law, owner_law, progress_law};
use ring_math::{Id, between, cw, nearer};

/// What coverage depends on: a node, its links, and the joiners of its gates.
#[derive(Clone, Copy, Debug, PartialEq, Eq)]
pub struct Reach {
    /// The node itself.
    pub me: Id,
    /// Its link counterclockwise.
    pub left: Id,
    /// Its link clockwise.
    pub right: Id,
    /// Who joins beside it counterclockwise.
    pub left_joiner: Option<Id>,
    /// Who joins beside it clockwise.
    pub right_joiner: Option<Id>,
}

/// Where a ready node sends what is for a key.
#[derive(Clone, Copy, Debug, PartialEq, Eq)]
pub enum Hop {
    /// The node covers the key itself.
    Here,
    /// The key is kept for this joiner.
    Gap(Id),
    /// This node is nearer to the key.
    To(Id),
}

/// Where the arc on the right ends: the joiner where it stands strictly between, else the link.
fn effective_right(reach: &Reach) -> Id
    ensures { result ≡ right_end reach.now }
{
    match reach.right_joiner {
        Some(joiner) if between(reach.me, joiner, reach.right) => joiner,
        _ => reach.right,
    }
}

fn effective_left(reach: &Reach) -> Id
    ensures { result ≡ left_end reach.now }
{
    match reach.left_joiner {
        Some(joiner) if between(reach.left, joiner, reach.me) => joiner,
        _ => reach.left,
    }
}

/// Whether the key is `me`, or in the nearer half of the arc on a side.
#[tactic(auto, unfolding(crate::specs::Coverage::in_arcs))]
fn is_in_arcs(me: Id, left: Id, right: Id, key: Id) -> bool
    ensures { result ≡ in_arcs me left right key }
{
    key == me
        || between(me, key, right) && cw(me, key) <= cw(key, right)
        || between(left, key, me) && cw(key, me) < cw(left, key)
}

/// Whether both links are the node itself, and nobody joins beside it.
fn stands_alone(reach: &Reach) -> bool
    ensures { result ≡ is_alone reach.now }
{
    reach.left == reach.me
        && reach.right == reach.me
        && reach.left_joiner.is_none()
        && reach.right_joiner.is_none()
}

/// Whether the node covers the key: the key is the node, or in the nearer half of the arc up to its effective right
/// or down to its effective left, or the node stands alone. The half-way point goes to the node counterclockwise of it.
pub fn covers(reach: &Reach, key: Id) -> bool
    ensures { result ≡ covers_of reach.now key }
{
    is_in_arcs(reach.me, effective_left(reach), effective_right(reach), key) || stands_alone(reach)
}

fn taken(side: Option<Id>, joiner: Id) -> Option<Id>
    ensures { result ≡ taken_of side joiner }
{
    match side {
        Some(other) if other == joiner => None,
        _ => side,
    }
}

/// The reach with the joiner taken from each side where it stands.
fn taken_from(reach: &Reach, joiner: Id) -> Reach
    ensures { result ≡ without reach.now joiner }
{
    Reach {
        me: reach.me,
        left: reach.left,
        right: reach.right,
        left_joiner: taken(reach.left_joiner, joiner),
        right_joiner: taken(reach.right_joiner, joiner),
    }
}

/// Whether the key is in the gap of this joiner: the node covers it without the joiner, and not as it is.
pub fn is_in_gap(reach: &Reach, joiner: Id, key: Id) -> bool
    ensures { result ≡ in_gap_of reach.now joiner key }
{
    covers(&taken_from(reach, joiner), key) && !covers(reach, key)
}

/// The joiner of a side, where the key is in its gap.
fn gap_on(reach: &Reach, joiner: Option<Id>, key: Id) -> Option<Id>
    ensures { result ≡ gap_for reach.now key joiner }
{
    match joiner {
        Some(j) if is_in_gap(reach, j, key) => Some(j),
        _ => None,
    }
}

/// The joiner for whom the node keeps the key: the right one where the key is in its gap, else the left one.
pub fn gap(reach: &Reach, key: Id) -> Option<Id>
    ensures { result ≡ gap_of reach.now key }
{
    gap_on(reach, reach.right_joiner, key).or(gap_on(reach, reach.left_joiner, key))
}

/// The first place whose identifier is as near to the key as each, and None exactly for no identifier.
#[tactic(auto, using(crate::proofs::Best::best_one, crate::proofs::Best::best_new, crate::proofs::Best::best_kept))]
pub fn closest_of(ids: &[Id], key: Id) -> Option<usize>
    ensures none { IsNone result ↔ (ids.now ≡ []) }
    ensures nearest { IfSome result (λ i. IsFirstClosest ids.now key i) }
{
    if ids.is_empty() {
        return None;
    }
    let mut best = 0;
    for i in 1..ids.len() {
        if nearer(ids[i], ids[best], key) {
            best = i;
        }
    }
    Some(best)
}

#[cfg(test)]
mod tests;
