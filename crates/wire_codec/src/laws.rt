//! Laws of the grammar alone, each the contract of a function that does nothing.

ghost use Rattle.std.specs.Prelude.{◌≡◌, ℕ, List, [], ◌++◌, None};
ghost use Rattle.wire_msg.specs.Words.{Envelope as PlainEnvelope};
ghost use Rattle.wire_codec.specs.Spelling.{Spells};
ghost use Rattle.wire_codec.specs.Reading.{refusal};

/// No spelling is a proper prefix of another.
pub fn no_spelling_begins_another()
    ensures { (a b rest : List ℕ) (e f : PlainEnvelope) → Spells a e → Spells b f → b ≡ a ++ rest → rest ≡ [] }
{}

/// No bytes spell two envelopes.
pub fn bytes_spell_one_envelope()
    ensures { (bytes : List ℕ) (e f : PlainEnvelope) → Spells bytes e → Spells bytes f → e ≡ f }
{}

/// What spells an envelope is not refused.
pub fn no_spelling_is_refused()
    ensures { (bytes : List ℕ) (e : PlainEnvelope) → Spells bytes e → refusal bytes ≡ None }
{}
