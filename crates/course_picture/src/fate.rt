//! How messages fared.

use wire_msg::Envelope;

/// How a message fared.
#[derive(Clone, Copy, PartialEq, Eq, Debug)]
pub enum Fate {
    /// It was delivered for the first time.
    First,
    /// It was delivered once more.
    Again,
    /// It was never delivered.
    Lost,
}

/// An arrow of a message, as it is drawn.
#[derive(Clone, Copy)]
pub(crate) struct Arrow<'a> {
    /// The number of the message.
    pub(crate) number: u64,
    pub(crate) envelope: &'a Envelope,
    /// The place of the entry that sent it.
    pub(crate) sent: usize,
    /// The place of the entry that delivered it.
    pub(crate) reached: usize,
    pub(crate) fate: Fate,
}
