//! What every group record keeps.

ghost use Rattle.overlay_rules.specs.Record.{IsSetting, Legal};
ghost use Rattle.step_facts.specs.Setting.{setting};
ghost use Rattle.scribe_core.specs.Laws.{CastsFollowGrafts, HeardOnce, MembersHear, ParentsAreNearer, RefusedOnlyWhere, WaysUpEnd, overlay_of};
ghost use Rattle.scribe_core.specs.Record.{IsGroupRecord};

use crate::group_record::GroupRecord;
use overlay_rules::Entries;
use ring_math::Id;

/// The law over all histories of groups on the overlay that a legal record has left, however messages are delayed, repeated,
/// reordered or withheld.
///
/// What is heard is of a group of which the node is then a member, an earlier or the same command published it there, and no node
/// hears it twice. Each parent is ready and nearer to the group's key, so the way up from each node ends, in fewer steps than
/// there are ready nodes. A Cast goes only to a node that sent its sender a Graft before. A command is refused only where the
/// node is not ready or keeps the group's key for a joiner.
pub fn groups_law(nodes: &[Id], founder: Id, entries: &Entries, groups: &GroupRecord)
    requires setting { IsSetting (setting nodes.now founder) }
    requires legal { Legal (setting nodes.now founder) entries.now }
    requires groups { IsGroupRecord (setting nodes.now founder) (overlay_of (setting nodes.now founder) entries.now) groups.now }
    ensures members_hear { MembersHear (overlay_of (setting nodes.now founder) entries.now) groups.now }
    ensures heard_once { HeardOnce (overlay_of (setting nodes.now founder) entries.now) groups.now }
    ensures parents_are_nearer { ParentsAreNearer (setting nodes.now founder) (overlay_of (setting nodes.now founder) entries.now) groups.now }
    ensures ways_up_end { WaysUpEnd (setting nodes.now founder) (overlay_of (setting nodes.now founder) entries.now) groups.now }
    ensures casts_follow_grafts { CastsFollowGrafts groups.now }
    ensures refused_only_where { RefusedOnlyWhere (overlay_of (setting nodes.now founder) entries.now) groups.now }
{
    entries.said_law();
}
