//! Envelopes that are kept, or lent, in lists.

ghost use Rattle.std.specs.Prelude.{◌≡◌};
ghost use Rattle.wire_msg.specs.Words.{Envelope as PlainEnvelope, plain_envelope};

use wire_msg::Envelope;

/// An envelope, or a reference to one.
pub(crate) trait Kept {
    /// The envelope, in the words of the rules.
    ghost kept: { Self → PlainEnvelope };

    fn envelope(&self) -> &Envelope
        ensures { plain_envelope result.now ≡ kept self.now };
}

impl Kept for Envelope {
    ghost kept = { plain_envelope };

    fn envelope(&self) -> &Envelope {
        self
    }
}

impl Kept for &Envelope {
    ghost kept = { λ v. plain_envelope v.now };

    fn envelope(&self) -> &Envelope {
        *self
    }
}
