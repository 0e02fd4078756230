//! The sizes of a course, in whole units.

/// How many entries a picture has at most.
pub const MOST_ROWS: usize = 1_000_000;

/// How far the columns begin from the left: before them stand the numbers of entries.
pub(crate) const LEFT: u32 = 60;

/// How far the lifelines begin from above: over them stand the labels of nodes.
pub(crate) const TOP: u32 = 80;

/// From an entry to the next.
pub(crate) const ROW: u32 = 20;

/// Half of that.
pub(crate) const HALF_ROW: u32 = 10;

/// Half the way from a lifeline to the next, where there are very many.
pub(crate) const HALF_COLUMN: u32 = 10;

/// What is shared out among the columns besides.
pub(crate) const SPREAD: u32 = 120;

/// How far a message from a node to itself is drawn to the right of its lifeline.
pub(crate) const LOOP: u32 = 8;

/// How far a number ends before the columns begin.
pub(crate) const MARGIN: u32 = 10;

/// How far letters stand apart from what they belong to.
pub(crate) const GAP: u32 = 6;

/// How far the line that letters stand on is below their middle.
pub(crate) const BASELINE: u32 = 4;

/// The radius of an entry, and how far a cross reaches to each side.
pub(crate) const RADIUS: u32 = 3;

/// How wide the words of entries are, but for the nodes that hold a file.
pub(crate) const WORDS: u32 = 440;

/// How much wider they are for each node that can hold a file.
pub(crate) const HOLDER: u32 = 44;

/// How far the labels of nodes are turned, in thousandths of a degree.
pub(crate) const TURN: u32 = 300_000;
