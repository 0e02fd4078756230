//! Angles, in thousandths of a degree clockwise from the top, and lengths of arcs.

ghost use Rattle.std.specs.Prelude.{◌≡◌, ◌≤◌};
ghost use Rattle.ring_picture.specs.Angles.{angle_of, length_of, span_of};

use ring_math::{Id, cw};

/// A whole turn.
pub(crate) const TURN: u32 = 360_000;

/// Half of the digits of a distance.
const HALF: u128 = 1 << 64;

/// The part of a whole turn that a distance is of the circle of identifiers. The product with [`TURN`] may need more than 128
/// bits, so it is taken by halves.
pub(crate) fn turned_by(distance: u128) -> u32
    ensures angle { result ≡ angle_of distance }
    ensures limit { result ≤ TURN }
{
    let turn = u128::from(TURN);
    let low = distance % HALF * turn / HALF;
    ((distance / HALF * turn + low) / HALF) as u32
}

/// Where an identifier stands.
pub(crate) fn angle_of(id: Id) -> u32
    ensures angle { result ≡ angle_of id }
    ensures limit { result ≤ TURN }
{
    turned_by(id.0)
}

/// How far it is clockwise from one identifier to another; from one to itself it is the whole circle.
pub(crate) fn span_of(from: Id, to: Id) -> u32
    ensures span { result ≡ span_of from to }
    ensures limit { result ≤ TURN }
{
    if from == to {
        TURN
    } else {
        turned_by(cw(from, to))
    }
}

/// How long an arc is, in thousandths of a unit.
pub(crate) fn length_of(radius: u32, angle: u32) -> u64
    requires radius { radius ≤ 1000 }
    requires angle { angle ≤ TURN }
    ensures { result ≡ length_of radius angle }
{
    u64::from(angle) * u64::from(radius) * 71 / 4068
}
