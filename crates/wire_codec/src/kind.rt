//! The version and the kind of a frame.

ghost use Rattle.std.specs.Prelude.{◌≡◌};
ghost use Rattle.wire_msg.specs.Words.{plain};
ghost use Rattle.wire_codec.specs.declared.kind.Version.TheVariants.{One, Two};
ghost use Rattle.wire_codec.specs.Kinds.{number_of, version_of, kind_of, version_of_reply, version_of_tombs};
ghost use Rattle.wire_codec.specs.Spelling.{version_number};
ghost use Rattle.wire_codec.specs.Reading.{Reads, numbered, version_from, kind_from};

use crate::fault::FrameFault;
use ring_math::FileIds;
use wire_msg::{Message, Reply};

/// Which of the two versions spells a frame.
#[derive(Clone, Copy, Debug, PartialEq, Eq)]
pub enum Version {
    One,
    Two,
}

/// The kind of a frame, with its version where both versions have frames of the kind.
#[derive(Clone, Copy, Debug, PartialEq, Eq)]
pub enum Kind {
    Lookup,
    LookupReply(Version),
    Insert,
    InsertReply(Version),
    Fetch,
    FetchReply(Version),
    JoinRequest,
    JoinReply,
    JoinRefuse,
    Probe,
    ProbeReply,
    LeaseRequest,
    Grant(Version),
    Deny,
    Handover,
    Release,
    Confirm,
    Announce,
    Replicate,
    ReplicaAck,
    Reclaim,
    ReclaimReply,
}

impl Version {
    pub(crate) fn from_byte(byte: u8) -> Result<Version, FrameFault>
        ensures { Reads (λ version. version) result (version_from byte) }
    {
        match byte {
            1 => Ok(Version::One),
            2 => Ok(Version::Two),
            found => Err(FrameFault::Version { found }),
        }
    }

    /// The version of a reply to a lookup, an insert or a fetch.
    fn of_reply(reply: &Reply) -> Version
        ensures { result ≡ version_of_reply reply.now }
    {
        match reply {
            Reply::Gone { .. } | Reply::Reclaimed { .. } => Version::Two,
            _ => Version::One,
        }
    }

    /// The version of a Grant.
    fn of_tombs(tombs: &FileIds) -> Version
        ensures { result ≡ version_of_tombs tombs.now }
    {
        if tombs.as_slice().is_empty() {
            Version::One
        } else {
            Version::Two
        }
    }

    pub(crate) fn number(self) -> u8
        ensures { result ≡ version_number self }
    {
        match self {
            Version::One => 1,
            Version::Two => 2,
        }
    }
}

impl Kind {
    fn numbered_in_one(byte: u8) -> Option<Kind>
        ensures { result ≡ numbered One byte }
    {
        match byte {
            1 => Some(Kind::Lookup),
            2 => Some(Kind::LookupReply(Version::One)),
            3 => Some(Kind::Insert),
            4 => Some(Kind::InsertReply(Version::One)),
            5 => Some(Kind::Fetch),
            6 => Some(Kind::FetchReply(Version::One)),
            7 => Some(Kind::JoinRequest),
            8 => Some(Kind::JoinReply),
            9 => Some(Kind::JoinRefuse),
            10 => Some(Kind::Probe),
            11 => Some(Kind::ProbeReply),
            12 => Some(Kind::LeaseRequest),
            13 => Some(Kind::Grant(Version::One)),
            14 => Some(Kind::Deny),
            15 => Some(Kind::Handover),
            16 => Some(Kind::Release),
            17 => Some(Kind::Confirm),
            18 => Some(Kind::Announce),
            19 => Some(Kind::Replicate),
            20 => Some(Kind::ReplicaAck),
            _ => None,
        }
    }

    fn numbered_in_two(byte: u8) -> Option<Kind>
        ensures { result ≡ numbered Two byte }
    {
        match byte {
            2 => Some(Kind::LookupReply(Version::Two)),
            4 => Some(Kind::InsertReply(Version::Two)),
            6 => Some(Kind::FetchReply(Version::Two)),
            13 => Some(Kind::Grant(Version::Two)),
            21 => Some(Kind::Reclaim),
            22 => Some(Kind::ReclaimReply),
            _ => None,
        }
    }

    pub(crate) fn from_byte(version: Version, byte: u8) -> Result<Kind, FrameFault>
        ensures { Reads (λ kind. kind) result (kind_from version byte) }
    {
        let kind = match version {
            Version::One => Kind::numbered_in_one(byte),
            Version::Two => Kind::numbered_in_two(byte),
        };
        match kind {
            Some(kind) => Ok(kind),
            None => Err(FrameFault::Kind { found: byte }),
        }
    }

    pub(crate) fn version(self) -> Version
        ensures { result ≡ version_of self }
    {
        match self {
            Kind::LookupReply(version)
            | Kind::InsertReply(version)
            | Kind::FetchReply(version)
            | Kind::Grant(version) => version,
            Kind::Reclaim | Kind::ReclaimReply => Version::Two,
            _ => Version::One,
        }
    }

    pub(crate) fn number(self) -> u8
        ensures { result ≡ number_of self }
    {
        match self {
            Kind::Lookup => 1,
            Kind::LookupReply(_) => 2,
            Kind::Insert => 3,
            Kind::InsertReply(_) => 4,
            Kind::Fetch => 5,
            Kind::FetchReply(_) => 6,
            Kind::JoinRequest => 7,
            Kind::JoinReply => 8,
            Kind::JoinRefuse => 9,
            Kind::Probe => 10,
            Kind::ProbeReply => 11,
            Kind::LeaseRequest => 12,
            Kind::Grant(_) => 13,
            Kind::Deny => 14,
            Kind::Handover => 15,
            Kind::Release => 16,
            Kind::Confirm => 17,
            Kind::Announce => 18,
            Kind::Replicate => 19,
            Kind::ReplicaAck => 20,
            Kind::Reclaim => 21,
            Kind::ReclaimReply => 22,
        }
    }

    /// The kind of the frame of a message.
    pub(crate) fn of_message(message: &Message) -> Kind
        ensures { result ≡ kind_of (plain message.now) }
    {
        match message {
            Message::Lookup { .. } => Kind::Lookup,
            Message::LookupReply { reply, .. } => Kind::LookupReply(Version::of_reply(reply)),
            Message::Insert { .. } => Kind::Insert,
            Message::InsertReply { reply, .. } => Kind::InsertReply(Version::of_reply(reply)),
            Message::Fetch { .. } => Kind::Fetch,
            Message::FetchReply { reply, .. } => Kind::FetchReply(Version::of_reply(reply)),
            Message::JoinRequest { .. } => Kind::JoinRequest,
            Message::JoinReply { .. } => Kind::JoinReply,
            Message::JoinRefuse { .. } => Kind::JoinRefuse,
            Message::Probe { .. } => Kind::Probe,
            Message::ProbeReply { .. } => Kind::ProbeReply,
            Message::LeaseRequest { .. } => Kind::LeaseRequest,
            Message::Grant { tombs, .. } => Kind::Grant(Version::of_tombs(tombs)),
            Message::Deny { .. } => Kind::Deny,
            Message::Handover { .. } => Kind::Handover,
            Message::Release { .. } => Kind::Release,
            Message::Confirm { .. } => Kind::Confirm,
            Message::Announce => Kind::Announce,
            Message::Replicate { .. } => Kind::Replicate,
            Message::ReplicaAck { .. } => Kind::ReplicaAck,
            Message::Reclaim { .. } => Kind::Reclaim,
            Message::ReclaimReply { .. } => Kind::ReclaimReply,
        }
    }
}
