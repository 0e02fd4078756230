//! One plain table of files: what every legal record keeps of the files that were accepted.
#![tactic(auto)]

ghost use Rattle.overlay_rules.specs.Laws.{OwnerHolds, HeldIsAccepted, NotedOnce, StoredStays, GoneIsReclaimed, ReclaimedIsLast};
ghost use Rattle.overlay_rules.specs.Record.{IsSetting, Legal};
ghost use Rattle.overlay_rules.specs.Rightly.{NotesAreRight};
ghost use Rattle.step_facts.specs.Setting.{setting};

use overlay_rules::Entries;
use ring_math::Id;

/// The law over all histories of files: in a legal record, however many nodes join at once and however messages are delayed,
/// repeated, reordered or withheld, the following holds after every entry.
///
/// Every note is right: each delivery, each answer and each closing. So every answer about a file is that of one plain table,
/// and each holder that an answer Stored names holds the file's bytes until the file is gone.
///
/// The ready node closest to the key of a file holds it with the bytes that the table keeps, or has a tombstone where the file
/// is gone. Bytes that any node holds are those that were first accepted for the file. No file is accepted twice, and none is
/// reclaimed twice.
///
/// A file once answered Stored is never afterwards answered NotFound, nor found with other bytes. Gone and Reclaimed are
/// answered only of a file that was reclaimed, and after that nothing of it is found or stored.
pub fn table_law(nodes: &[Id], founder: Id, entries: &Entries)
    requires setting { IsSetting (setting nodes.now founder) }
    requires legal { Legal (setting nodes.now founder) entries.now }
    ensures notes_are_right { NotesAreRight (setting nodes.now founder) entries.now }
    ensures owner_holds { OwnerHolds (setting nodes.now founder) entries.now }
    ensures held_is_accepted { HeldIsAccepted (setting nodes.now founder) entries.now }
    ensures noted_once { NotedOnce entries.now }
    ensures stored_stays { StoredStays entries.now }
    ensures gone_is_reclaimed { GoneIsReclaimed entries.now }
    ensures reclaimed_is_last { ReclaimedIsLast entries.now }
{
    entries.said_law();
}

#[cfg(test)]
mod tests;
