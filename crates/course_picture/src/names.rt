//! The names of nodes in labels: their first digits.

ghost use Rattle.std.specs.Prelude.{◌≡◌, IfOk};
ghost use Rattle.course_picture.specs.Words.{named, names_of};

use ring_math::{Id, OutOfMemory};
use scenario_reader::{Name, NodeLine};
use std::alloc::Global;
use svg_text::short_label;

/// The nodes under their names.
pub(crate) fn names_of(alloc: Global, ids: &[Id]) -> Result<Vec<NodeLine>, OutOfMemory>
    ensures { IfOk result (λ names. names.items ≡ names_of ids.now) }
{
    let mut names = Vec::new(alloc);
    for id in ids {
        names.push(named(*id))?;
    }
    Ok(names)
}

fn named(id: Id) -> NodeLine
    ensures { result ≡ named id }
{
    NodeLine {
        name: Name::new(&short_label(id)).unwrap(),
        id,
        line: 0,
    }
}
