//! Where a group's key leads.

ghost use Rattle.std.specs.Prelude.{◌≡◌, Contains};
ghost use Rattle.overlay_rules.specs.Routed.{way_by, way_of};
ghost use Rattle.world_model.specs.Recorded.{world_of};

use coverage::Hop;
use overlay_rules::Way;
use ring_math::Id;
use world_model::World;

/// Where a key leads from a node of a world.
pub(crate) fn way_from(world: &World, node: Id, key: Id) -> Way
    requires { Contains world.now.nodes node }
    ensures { result ≡ way_of ((world_of world.now).states node) key }
{
    match world.next_hop(node, key) {
        Some(hop) => way_by(hop),
        None => Way::NotReady,
    }
}

fn way_by(hop: Hop) -> Way
    ensures { result ≡ way_by hop }
{
    match hop {
        Hop::Here => Way::Here,
        Hop::Gap(joiner) => Way::Gap { joiner },
        Hop::To(node) => Way::To { node },
    }
}
