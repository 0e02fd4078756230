//! Whether messages and noise came no more often than they could.

ghost use Rattle.std.specs.Prelude.{◌≡◌, ◌≤◌, ◌⊎◌, ◌-◌, ℕ, [], true, false, All, IfOk, length, map, slice_index};
ghost use Rattle.std.specs.List.{count_by};
ghost use Rattle.overlay_rules.specs.Record.{sent_in};
ghost use Rattle.overlay_rules.specs.Seen.{event_seen};
ghost use Rattle.node_cell.specs.Entries.{plain_input_of};
ghost use Rattle.weave.specs.Cells.{histories};
ghost use Rattle.overlay_harness.specs.Clauses.{HasItsNoise};
ghost use Rattle.overlay_harness.specs.Enough.{AreCountedDown, AreLeftOf, CameAtMost, CameTooOften, IsCountedDown, IsOfThese, IsOneLess, IsUsedUp, delivered};
ghost use Rattle.overlay_harness.specs.Inputs.{is_noise};
ghost use Rattle.overlay_harness.specs.Ran.{inputs_in};
ghost use Rattle.overlay_harness.specs.Shown.{shown};
ghost use Rattle.overlay_harness.specs.Tested.{HasTooMuchNoise};
ghost use Rattle.overlay_harness.specs.Stages.{is_noise_for, most_copies, noise_for};

use crate::stage::Stage;
use node_cell::{CellEntry, CellInput, NodeCell};
use overlay_rules::{Entries, EventRef};
use ring_math::{Id, OutOfMemory};
use scenario_reader::{Action, What};
use std::alloc::Global;

/// Whether each message was delivered at most so many times.
pub(crate) fn came_at_most(
    alloc: Global,
    entries: &Entries,
    copies: u8,
) -> Result<bool, OutOfMemory>
    requires { All (λ e. IsOfThese (length (sent_in entries.now)) e.event) entries.now }
    ensures kept { IfOk result (λ kept. kept ≡ true → CameAtMost copies (sent_in entries.now) (delivered (sent_in entries.now) entries.now)) }
    ensures more { IfOk result (λ kept. kept ≡ false → CameTooOften copies entries.now) }
{
    let mut left = Vec::new(alloc);
    left.resize(entries.sent().len(), copies)?;
    Ok(count_all(&mut left, entries))
}

/// Counts all deliveries down from what is left of each message, or as far as something is left of it.
fn count_all(left: &mut [u8], entries: &Entries) -> bool
    requires long { length left.old ≡ length (sent_in entries.now) }
    requires these { All (λ e. IsOfThese (length (sent_in entries.now)) e.event) entries.now }
    ensures kept { result ≡ true → AreCountedDown left.old (sent_in entries.now) entries.now left.new }
    ensures more { (copies : ℕ) → AreLeftOf copies [] left.old → result ≡ false → CameTooOften copies entries.now }
{
    for place in 0..entries.len() {
        let entry = entries.at(place);
        // Named, since the prover has to see what type a command is.
        if let EventRef::Command {
            command: _command,
            ..
        } = entry.event
        {}
        if !count_down(left, &entry.event) {
            return false;
        }
    }
    true
}

/// Takes one off what is left of the message that an event delivered, and answers false where nothing is left of it.
fn count_down(left: &mut [u8], event: &EventRef) -> bool
    ensures kept { result ≡ true → IsCountedDown left.old (event_seen event.now) left.new }
    ensures more { result ≡ false → IsUsedUp left.old (event_seen event.now) }
{
    let EventRef::Deliver { message } = event else {
        return true;
    };
    take_one(left, *message)
}

fn take_one(left: &mut [u8], message: u64) -> bool
    ensures kept { result ≡ true → IsOneLess left.old message left.new }
    ensures more { result ≡ false → (length left.old ≤ message) ⊎ (slice_index left.old message ≡ 0) }
{
    if message >= left.len() as u64 {
        return false;
    }
    let place = message as usize;
    if left[place] == 0 {
        return false;
    }
    left[place] -= 1;
    true
}

/// The greatest copies of any stage.
pub(crate) fn most_copies(stages: &[Stage<'_>]) -> u8
    ensures { result ≡ most_copies (map shown stages.now) }
{
    let mut most = 1;
    for stage in stages {
        most = stage.copies.max(most);
    }
    most
}

/// Whether noise came to each node at most as often as the stages have it.
pub(crate) fn noise_is_theirs(cells: &[NodeCell], stages: &[Stage<'_>]) -> bool
    ensures kept { result ≡ true → All (λ h. HasItsNoise (map shown stages.now) h.node (inputs_in h)) (histories cells.now) }
    ensures more { result ≡ false → HasTooMuchNoise (map shown stages.now) (histories cells.now) }
{
    for cell in cells {
        let came = noise_in(cell.history());
        if noise_past(came, stages, cell.me()) > 0 {
            return false;
        }
    }
    true
}

/// How often noise came.
fn noise_in(history: &[CellEntry]) -> usize
    ensures { result ≡ count_by (λ e. is_noise (plain_input_of e.input)) history.now }
{
    let mut count = 0;
    for entry in history {
        if is_noise(&entry.input) {
            count += 1;
        }
    }
    count
}

fn is_noise(input: &CellInput) -> bool
    ensures { result ≡ is_noise (plain_input_of input.now) }
{
    matches!(input, CellInput::Noise)
}

/// How often noise came to a node past what the stages have for it: each noise as often as its stage has copies.
fn noise_past(came: usize, stages: &[Stage<'_>], node: Id) -> usize
    ensures { result ≡ came - noise_for node (map shown stages.now) }
{
    let mut past = came;
    for stage in stages {
        let own = noise_in_stage(stage.actions, node);
        past = past.saturating_sub(own.saturating_mul(stage.copies as usize));
    }
    past
}

fn noise_in_stage(actions: &[Action], node: Id) -> usize
    ensures { result ≡ count_by (λ a. is_noise_for node a.what) actions.now }
{
    actions
        .iter()
        .filter(|action| is_noise_for(node, &action.what))
        .count()
}

fn is_noise_for(node: Id, what: &What) -> bool
    ensures { result ≡ is_noise_for node what.now }
{
    matches!(what, What::Noise { node: to, .. } if *to == node)
}
