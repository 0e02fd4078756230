//! Messages as frames of bytes, and frames as messages; commands and notes as bytes in the same forms.
#![tactic(auto)]

mod check;
mod decoder;
mod encoder;
mod fault;
mod field;
mod header;
mod kind;
mod laws;
mod message;
mod note;
mod notes;
mod owned;
mod put;
mod put_message;
mod put_note;
mod size;
mod tagged;
mod walk;
mod walk_note;

pub use decoder::{decode, is_frame};
pub use encoder::{encode, encode_into};
pub use fault::FrameFault;
pub use laws::{bytes_spell_one_envelope, no_spelling_begins_another, no_spelling_is_refused};
pub use notes::{decode_command, decode_note, encode_command, encode_note, encode_note_into};

#[cfg(test)]
mod tests;
