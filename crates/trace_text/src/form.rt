//! The forms of line.

ghost use Rattle.std.specs.Prelude.{◌≡◌, ◌≢◌, bytes_eq, MatchOption};
ghost use Rattle.trace_text.specs.Lines.{word_of};
ghost use Rattle.trace_text.specs.declared.form.Form.{Form as PlainForm};

/// A form of line, by its first word.
#[derive(Clone, Copy, PartialEq, Eq, Debug)]
pub(crate) enum Form {
    Trace,
    Node,
    Founder,
    Command,
    Deliver,
    Noise,
    Sent,
    Note,
    End,
}

impl Form {
    /// The form of a line with this first word. None where no line begins with it.
    pub(crate) fn with(word: &[u8]) -> Option<Form>
        ensures { MatchOption result ((f : PlainForm) → word.now ≢ word_of f) (λ f. word.now ≡ word_of f) }
    {
        if spells(word, "deliver") {
            Some(Form::Deliver)
        } else if spells(word, "sent") {
            Some(Form::Sent)
        } else if spells(word, "note") {
            Some(Form::Note)
        } else if spells(word, "command") {
            Some(Form::Command)
        } else if spells(word, "noise") {
            Some(Form::Noise)
        } else if spells(word, "node") {
            Some(Form::Node)
        } else if spells(word, "founder") {
            Some(Form::Founder)
        } else if spells(word, "trace") {
            Some(Form::Trace)
        } else if spells(word, "end") {
            Some(Form::End)
        } else {
            None
        }
    }
}

fn spells(word: &[u8], text: &str) -> bool
    ensures { result ≡ bytes_eq word.now text.now }
{
    word == text.as_bytes()
}
