//! How large a ring is drawn.

ghost use Rattle.std.specs.Prelude.{◌≡◌, ◌≤◌};
ghost use Rattle.ring_picture.specs.Layouts.{IsLayout, beside, layout_of, middle, size_of, top_of};

use svg_text::Point;

/// How many nodes a small ring has at most.
pub(crate) const FEW: usize = 24;

/// How much room a label takes along the radius.
pub(crate) const LABEL_ROOM: u32 = 54;

/// The measures of a ring, in units of the picture.
#[derive(Clone, Copy, PartialEq, Eq, Debug)]
pub struct Layout {
    /// How far its middle is from the left, and from the top.
    pub center: u32,
    /// The radius of the circle of identifiers.
    pub radius: u32,
    /// The radius of a node's dot.
    pub dot: u32,
    /// In how many tiers the labels of nodes stand.
    pub tiers: usize,
}

impl Layout {
    /// That of a ring with so many nodes.
    pub(crate) fn of(nodes: usize) -> Layout
        ensures layout { result ≡ layout_of nodes }
        ensures fits { IsLayout result }
    {
        if nodes <= FEW {
            Layout {
                center: 236,
                radius: 160,
                dot: 6,
                tiers: 1,
            }
        } else {
            Layout {
                center: 470,
                radius: 280,
                dot: 4,
                tiers: 3,
            }
        }
    }

    pub(crate) fn middle(&self) -> Point
        ensures { result ≡ middle self.now }
    {
        Point {
            x: self.center,
            y: self.center,
        }
    }

    /// The top of the circle with this radius.
    pub(crate) fn top(&self, radius: u32) -> Point
        requires { radius ≤ self.now.center }
        ensures { result ≡ top_of self.now radius }
    {
        Point {
            x: self.center,
            y: self.center - radius,
        }
    }

    /// How far links run beside the circle.
    pub(crate) fn beside(&self) -> u32
        requires { IsLayout self.now }
        ensures { result ≡ beside self.now }
    {
        self.dot / 2 + 1
    }
}

/// How wide and how high the picture of a ring with so many nodes is.
pub fn ring_size(nodes: usize) -> u32
    ensures size { result ≡ size_of nodes }
    ensures least { 400 ≤ result }
    ensures most { result ≤ 1000 }
{
    2 * Layout::of(nodes).center
}
