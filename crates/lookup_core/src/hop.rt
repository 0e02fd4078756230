//! Where a ready node sends what is for a key, after Pastry's routing.

ghost use Rattle.std.specs.Prelude.{◌≡◌, ◌≢◌, ◌++◌, List, filter, true};
ghost use Rattle.ring_math.specs.Names.{Id};
ghost use Rattle.ring_math.specs.Ring.{digit_of, shared_of, is_nearer};
ghost use Rattle.ring_math.specs.Sides.{leaves, entry_of, entries_of};
ghost use Rattle.coverage.specs.declared.Hop.TheVariants.{To};
ghost use Rattle.coverage.specs.Closest.{closest_in};
ghost use Rattle.coverage.specs.Known.{KnowsLinks};
ghost use Rattle.coverage.specs.NextHop.{is_better, to_leaf as to_leaf_of, to_any as to_any_of, by_prefix as by_prefix_of};
ghost use Rattle.coverage.specs.NextHop.{onward as onward_of, next_hop_of};
ghost use Rattle.lookup_core.specs.Kept.{StandsFor, Others, if_nearer};

use crate::knowledge::Knowledge;
use coverage::{Hop, Reach, covers, gap};
use ring_math::{Id, digit, nearer, nearer_of, shared};

/// The leaf that no leaf is nearer to the key than.
fn nearest_leaf(known: &Knowledge, key: Id) -> Option<Id>
    ensures { (list : List Id) → StandsFor known.now list → Others known.now.leafs.me list →
        result ≡ closest_in key (leaves known.now.leafs.me list) }
{
    known.leafs().nearest(key)
}

/// The nearest of the leaves and entries that share as many digits with the key as the node, and are nearer to it.
fn best_known(known: &Knowledge, key: Id) -> Option<Id>
    ensures { let me = known.now.leafs.me in
        (list : List Id) → StandsFor known.now list → Others me list →
        result ≡ closest_in key (filter (is_better me key) (leaves me list ++ entries_of me list)) }
{
    let me = known.me();
    let least = shared(me, key);
    let leaf = known.leafs().best(key, least, me);
    let entry = known.table().best(key, least, me);
    nearer_of(leaf, entry, key)
}

/// The entry that shares one digit more with the key than the node.
fn entry_for(known: &Knowledge, key: Id) -> Option<Id>
    requires { key ≢ known.now.leafs.me }
    ensures { let me = known.now.leafs.me in
        (list : List Id) → StandsFor known.now list → Others me list →
        result ≡ entry_of me list (shared_of me key) (digit_of key (shared_of me key)) }
{
    let me = known.me();
    let row = shared(me, key);
    known.table().entry(row, digit(key, row))
}

/// The entry where it is nearer to the key than the node.
fn if_it_is_nearer(entry: Option<Id>, me: Id, key: Id) -> Option<Id>
    ensures { result ≡ if_nearer entry me key }
{
    match entry {
        Some(id) if nearer(id, me, key) => Some(id),
        _ => None,
    }
}

/// To the nearest leaf; a node that knows nobody has nowhere to send.
fn to_leaf(known: &Knowledge, key: Id) -> Hop
    ensures { let me = known.now.leafs.me in
        (list : List Id) → StandsFor known.now list → Others me list → result ≡ to_leaf_of me list key }
{
    match nearest_leaf(known, key) {
        Some(leaf) => Hop::To(leaf),
        None => Hop::Here,
    }
}

/// To the nearest of the better leaves and entries, else to the nearest leaf.
fn to_any(known: &Knowledge, key: Id) -> Hop
    ensures { let me = known.now.leafs.me in
        (list : List Id) → StandsFor known.now list → Others me list → result ≡ to_any_of me list key }
{
    match best_known(known, key) {
        Some(id) => Hop::To(id),
        None => to_leaf(known, key),
    }
}

/// To the entry where it is nearer than the node, else to any better.
fn by_prefix(known: &Knowledge, key: Id) -> Hop
    requires { key ≢ known.now.leafs.me }
    ensures { let me = known.now.leafs.me in
        (list : List Id) → StandsFor known.now list → Others me list → result ≡ by_prefix_of me list key }
{
    let entry = entry_for(known, key);
    match if_it_is_nearer(entry, known.me(), key) {
        Some(id) => Hop::To(id),
        None => to_any(known, key),
    }
}

/// The way to a key that the node neither covers nor keeps for a joiner.
fn onward(known: &Knowledge, key: Id) -> Hop
    requires { key ≢ known.now.leafs.me }
    ensures { let me = known.now.leafs.me in
        (list : List Id) → StandsFor known.now list → Others me list → result ≡ onward_of me list key }
{
    if known.leafs().in_range(key) {
        return to_leaf(known, key);
    }
    by_prefix(known, key)
}

/// The next hop of a key from a ready node with this reach and this knowledge, which is made for the same node.
///
/// It is `Here` where the node covers the key, `Gap` where it keeps the key for a joiner, and else `To` a node that it
/// knows. Where each link is the node itself or known, that node is nearer to the key. It takes no memory.
pub fn next_hop(reach: &Reach, known: &Knowledge, key: Id) -> Hop
    requires { known.now.leafs.me ≡ reach.now.me }
    ensures hop { (list : List Id) → StandsFor known.now list → KnowsLinks reach.now list → result ≡ next_hop_of reach.now list key }
    ensures nearer { (list : List Id) (y : Id) → StandsFor known.now list → KnowsLinks reach.now list → result ≡ To y →
        is_nearer y reach.now.me key ≡ true }
{
    if covers(reach, key) {
        return Hop::Here;
    }
    match gap(reach, key) {
        Some(joiner) => Hop::Gap(joiner),
        None => onward(known, key),
    }
}
