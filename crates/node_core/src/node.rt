//! A node as others see it.

ghost use Rattle.std.specs.Prelude.{◌≡◌, IfOk, OnErr, option_copied, true, false};
ghost use Rattle.ring_math.specs.Files.{slot_of};
ghost use Rattle.file_store.specs.Answers.{bytes_in};
ghost use Rattle.overlay_rules.specs.State.{State, start, is_ready};
ghost use Rattle.overlay_rules.specs.Step.{step as step_of};
ghost use Rattle.node_parts.specs.Fits.{Fits};
ghost use Rattle.node_parts.specs.Makes.{Makes};
ghost use Rattle.node_parts.specs.Plans.{Prepares};
ghost use Rattle.node_parts.specs.Seen.{Stands};
ghost use Rattle.node_parts.specs.Sound.{IsSound};
ghost use Rattle.node_parts.specs.Views.{reach_of, hop_of};
ghost use Rattle.node_core.specs.Inputs.{plain_input};
ghost use Rattle.node_core.specs.Stepped.{Stepped};

use crate::dispatch::plan;
use crate::input::{Input, Output};
use crate::laws::input_law;
use coverage::{Hop, Reach};
use node_parts::{Change, Node as Parts, Prepared};
use ring_math::{FileId, Id, OutOfMemory};
use std::alloc::Global;
use std::marker::Model;
use wire_msg::Message;

/// A node of the overlay. It is seen as its parts, and `Stands` says which states they stand for: those that differ only in
/// what was learnt and neither the leaves nor the prefix table show.
#[derive(Drop)]
pub struct Node {
    parts: Parts,
}

impl Model for Node {
    ghost use Rattle.node_parts.specs.declared.node.Node.{Node as TheParts};

    ghost Value = { TheParts };

    ghost view = { λ a. a.parts };
}

impl Node {
    /// The founder of a ring: ready, alone, with itself as both links.
    pub fn founder(alloc: Global, me: Id) -> Result<Node, OutOfMemory>
        ensures me { IfOk result (λ node. node.me ≡ me) }
        ensures stands { IfOk result (λ node. Stands node (start me true)) }
    {
        let parts = Parts::founder(alloc, me)?;
        Ok(Node { parts })
    }

    /// A node that is to join, with its first attempt.
    pub fn fresh(alloc: Global, me: Id) -> Result<Node, OutOfMemory>
        ensures me { IfOk result (λ node. node.me ≡ me) }
        ensures stands { IfOk result (λ node. Stands node (start me false)) }
    {
        let parts = Parts::fresh(alloc, me)?;
        Ok(Node { parts })
    }

    /// The same node, of its own but for the bytes of files, which are shared.
    pub fn copy(&self, alloc: Global) -> Result<Node, OutOfMemory>
        ensures { IfOk result (λ copy. (s : State) → Stands self.now s → Stands copy s) }
    {
        let parts = self.parts.copy(alloc)?;
        Ok(Node { parts })
    }

    /// The identifier of the node.
    pub fn id(&self) -> Id
        ensures { result ≡ self.now.me }
    {
        self.parts.me
    }

    /// Whether it has joined.
    pub fn is_ready(&self) -> bool
        ensures { (s : State) → Stands self.now s → result ≡ is_ready s.phase }
    {
        self.parts.is_ready()
    }

    /// What coverage depends on, None exactly where the node is not ready.
    pub fn reach(&self) -> Option<Reach>
        ensures { (s : State) → Stands self.now s → result ≡ reach_of s }
    {
        self.parts.reach()
    }

    /// Where the node sends what is for a key, None exactly where it is not ready.
    pub fn next_hop(&self, key: Id) -> Option<Hop>
        ensures { (s : State) → Stands self.now s → result ≡ hop_of s key }
    {
        self.parts.next_hop(key)
    }

    /// The bytes of a file, and None exactly where no bytes are held.
    pub fn holds(&self, file: &FileId) -> Option<&[u8]>
        ensures { (s : State) → Stands self.now s → option_copied result ≡ bytes_in (slot_of s.files file.now) }
    {
        self.parts.holds(file)
    }

    /// All of a step that can be refused: what it sends, what it notes, what it changes, and room for the change. The node
    /// stands for what it stood for, whatever the answer.
    #[inline(always)]
    pub fn prepare(&mut self, alloc: Global, input: &Input<'_>) -> Result<Prepared, OutOfMemory>
        ensures me { self.new.me ≡ self.old.me }
        ensures stands { (s : State) → Stands self.old s → Stands self.new s }
        ensures fits { IfOk result (λ p. Fits self.new p.change) }
        ensures plans { (s : State) → Stands self.old s → IfOk result (λ p. Prepares s p (step_of s (plain_input input.now))) }
        ensures sound { (s : State) → Stands self.old s → IsSound (step_of s (plain_input input.now)).state }
    {
        input_law(input);
        if is_probe(input) && self.parts.is_ready() {
            self.parts.list_members(alloc)?;
        }
        let prepared = plan(&self.parts, alloc, input)?;
        self.parts.make_room(&prepared.change)?;
        Ok(prepared)
    }

    /// The change of a step that was prepared is made. It takes no memory.
    ///
    /// It is there for who keeps nodes and records their steps, as a world does: the change is to be the one that `prepare`
    /// answered last, and nothing is to come between. A step that is of no such record is made by `step`.
    #[inline(always)]
    pub fn commit(&mut self, change: Change)
        requires { Fits self.old change }
        ensures me { self.new.me ≡ self.old.me }
        ensures stands { (s t : State) → Stands self.old s → Makes change s t → IsSound t → Stands self.new t }
    {
        self.parts.commit(change);
    }

    /// One step. For each state that the node stood for it stands afterwards for the state of the rules' step, and the
    /// output is that step's messages and notes. After `OutOfMemory` it stands for what it stood for.
    pub fn step(&mut self, alloc: Global, input: &Input<'_>) -> Result<Output, OutOfMemory>
        ensures me { self.new.me ≡ self.old.me }
        ensures ok { (s : State) → Stands self.old s → IfOk result (λ out. Stepped self.new out (step_of s (plain_input input.now))) }
        ensures err { OnErr result ((s : State) → Stands self.old s → Stands self.new s) }
    {
        let Prepared {
            messages,
            notes,
            change,
        } = self.prepare(alloc, input)?;
        self.commit(change);
        Ok(Output { messages, notes })
    }
}

/// Whether it is a Probe. A node is probed often before its leaves change, and tells each time who they are.
fn is_probe(input: &Input<'_>) -> bool {
    match input {
        Input::Message { message, .. } => matches!(message, Message::Probe { .. }),
        _ => false,
    }
}
