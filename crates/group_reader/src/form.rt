//! The forms of line of part two.

ghost use Rattle.std.specs.Prelude.{◌≡◌, bytes_eq};
ghost use Rattle.group_reader.specs.Grammar.{form_of};

/// A form of line, by its first word.
#[derive(Clone, Copy)]
pub(crate) enum Form {
    Subscribe,
    Leave,
    Publish,
    Settle,
    Deliver,
}

/// The form of a line with this first word. None where no line begins with it.
pub(crate) fn form_with(word: &[u8]) -> Option<Form>
    ensures { result ≡ form_of word.now }
{
    if spells(word, "subscribe") {
        Some(Form::Subscribe)
    } else if spells(word, "leave") {
        Some(Form::Leave)
    } else if spells(word, "publish") {
        Some(Form::Publish)
    } else if spells(word, "settle") {
        Some(Form::Settle)
    } else if spells(word, "deliver") {
        Some(Form::Deliver)
    } else {
        None
    }
}

fn spells(word: &[u8], text: &str) -> bool
    ensures { result ≡ bytes_eq word.now text.now }
{
    word == text.as_bytes()
}
