//! One insert that waits.

ghost use Rattle.std.specs.Prelude.{◌≡◌, ◌<◌, ◌++◌, ◌∷◌, [], IfOk, vec_len, vec_capacity};
ghost use Rattle.ring_math.specs.Bytewise.{same_bytes};
ghost use Rattle.ring_math.specs.Sides.{is_in};
ghost use Rattle.overlay_rules.specs.Roots.{is_ask, is_of};
ghost use Rattle.overlay_rules.specs.Replicas.{awaits};
ghost use Rattle.overlay_rules.specs.Gatekeeper.{is_left_to};

use coverage::{Reach, is_in_gap};
use overlay_rules::Pending;
use ring_math::{FileId, Id, Ids, OutOfMemory, key_of};
use std::alloc::Global;

fn is_same_text(a: &[u8], b: &[u8]) -> bool
    ensures { result ≡ same_bytes a.now b.now }
{
    a == b
}

fn is_same(a: &FileId, b: &FileId) -> bool
    ensures { result ≡ same_bytes a.now b.now }
{
    is_same_text(&a.0, &b.0)
}

pub(crate) fn is_of_file(ask: &Pending, file: &FileId) -> bool
    ensures { result ≡ is_of file.now ask.now }
{
    is_same(&ask.file, file)
}

/// It is this command's.
pub(crate) fn is_for(ask: &Pending, origin: Id, number: u64) -> bool
    ensures { result ≡ is_ask origin number ask.now }
{
    ask.origin == origin && ask.number == number
}

fn has(ids: &Ids, id: Id) -> bool
    ensures { result ≡ is_in ids.now id }
{
    ids.as_slice().iter().any(|other| *other == id)
}

/// It is this command's and of this file, and awaits this node.
pub(crate) fn is_awaiting(ask: &Pending, from: Id, origin: Id, number: u64, file: &FileId) -> bool
    ensures { result ≡ awaits from origin number file.now ask.now }
{
    is_for(ask, origin, number) && (is_of_file(ask, file) && has(&ask.awaited, from))
}

/// Its key is in the gap of the joiner.
pub(crate) fn is_left(ask: &Pending, reach: &Reach, joiner: Id) -> bool
    ensures { result ≡ is_left_to reach.now joiner ask.now }
{
    is_in_gap(reach, joiner, key_of(&ask.file))
}

/// Adds an insert in room that was taken before.
pub(crate) fn push_within(asks: &mut Vec<Pending>, ask: Pending)
    requires { vec_len asks.old < vec_capacity asks.old }
    ensures { asks.new.items ≡ asks.old.items ++ ask ∷ [] }
{
    let _pushed = asks.push(ask);
}

pub(crate) fn copy_of(alloc: Global, ask: &Pending) -> Result<Pending, OutOfMemory>
    ensures { IfOk result (λ copy. copy ≡ ask.now) }
{
    let targets = ask.targets.copy(alloc)?;
    let awaited = ask.awaited.copy(alloc)?;
    Ok(Pending {
        origin: ask.origin,
        number: ask.number,
        file: ask.file,
        targets,
        awaited,
    })
}
