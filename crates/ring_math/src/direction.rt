//! The two ways round the circle.

ghost use Rattle.std.specs.Prelude.{◌≡◌};
ghost use Rattle.ring_math.specs.Direction.{far};

use crate::circle::cw;
use crate::id::Id;

/// Which way round the circle.
#[derive(Clone, Copy, PartialEq, Eq, Debug)]
pub enum Direction {
    Clockwise,
    Counterclockwise,
}

/// How far it is from `me` to `id`, going that way.
pub fn distance(me: Id, direction: Direction, id: Id) -> u128
    ensures { result ≡ far me direction id }
{
    match direction {
        Direction::Clockwise => cw(me, id),
        Direction::Counterclockwise => cw(id, me),
    }
}
