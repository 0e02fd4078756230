//! What a piece of a picture stands for.

ghost use Rattle.std.specs.Prelude.{◌≡◌, ◌++◌, OnOk};
ghost use Rattle.svg_text.specs.Classes.{class_text};

use ring_math::OutOfMemory;
use text_writer::Text;

/// What a piece of a picture stands for. The style sheet has one line for each.
#[derive(Clone, Copy, PartialEq, Eq, Debug)]
pub enum Class {
    /// What all is drawn on.
    Paper,
    /// The circle of identifiers.
    Ring,
    /// A link of a node.
    Link,
    /// The head of a link.
    LinkHead,
    /// A gate of a node.
    Gate,
    /// The head of a gate.
    GateHead,
    /// A node that is ready.
    Ready,
    /// A node that is not.
    Joiner,
    /// The key of a file.
    Key,
    /// The way from a key to its owner.
    Owner,
    /// The end of that way, with a head.
    OwnerHead,
    /// The lifeline of a node.
    Life,
    /// An entry at its node.
    Entry,
    /// A message that was delivered for the first time, with a head.
    Sent,
    /// A message that was delivered once more, with a head.
    Again,
    /// A part of a line for a first delivery, without its head.
    SentPart,
    /// A part of a line for one more delivery, without its head.
    AgainPart,
    /// A message that was never delivered.
    Lost,
    /// The cross at the end of one.
    Cross,
    /// What is wrong.
    Wrong,
    /// What lies behind what is wrong.
    Marked,
    /// A light line that leads to words.
    Guide,
    /// Words that begin at their place.
    Label,
    /// Words that end at their place.
    LabelEnd,
    /// Words with their middle at their place.
    LabelMiddle,
    /// Words that begin at their place and matter less.
    Faint,
    /// Words that end at their place and matter less.
    FaintEnd,
}

/// The name of a class, as the style sheet has it.
pub(crate) fn put_class(text: &mut Text, class: Class) -> Result<(), OutOfMemory>
    ensures { OnOk result (text.new ≡ text.old ++ class_text class) }
{
    match class {
        Class::Paper => text.put(b"paper"),
        Class::Ring => text.put(b"ring"),
        Class::Link => text.put(b"link"),
        Class::LinkHead => text.put(b"link-head"),
        Class::Gate => text.put(b"gate"),
        Class::GateHead => text.put(b"gate-head"),
        Class::Ready => text.put(b"ready"),
        Class::Joiner => text.put(b"joiner"),
        Class::Key => text.put(b"key"),
        Class::Owner => text.put(b"owner"),
        Class::OwnerHead => text.put(b"owner-head"),
        Class::Life => text.put(b"life"),
        Class::Entry => text.put(b"entry"),
        Class::Sent => text.put(b"sent"),
        Class::Again => text.put(b"again"),
        Class::SentPart => text.put(b"sent-part"),
        Class::AgainPart => text.put(b"again-part"),
        Class::Lost => text.put(b"lost"),
        Class::Cross => text.put(b"cross"),
        Class::Wrong => text.put(b"wrong"),
        Class::Marked => text.put(b"marked"),
        Class::Guide => text.put(b"guide"),
        Class::Label => text.put(b"label"),
        Class::LabelEnd => text.put(b"label-end"),
        Class::LabelMiddle => text.put(b"label-middle"),
        Class::Faint => text.put(b"faint"),
        Class::FaintEnd => text.put(b"faint-end"),
    }
}
