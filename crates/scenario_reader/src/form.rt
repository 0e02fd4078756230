//! The forms of line.

ghost use Rattle.std.specs.Prelude.{◌≡◌, bytes_eq};
ghost use Rattle.scenario_reader.specs.Forms.{form_of, parts_of};

/// A form of line, by its first word.
#[derive(Clone, Copy)]
pub enum Form {
    Node,
    File,
    First,
    Join,
    Lookup,
    Insert,
    Fetch,
    Reclaim,
    GiveUp,
    Settle,
    Deliver,
    Shuffle,
    Dup,
    Noise,
}

/// What a word of a line stands for.
#[derive(Clone, Copy)]
pub enum Part {
    /// The name of a node that the line declares.
    NewNode,
    /// The identifier of that node.
    NewIdentifier,
    /// The name of a file that the line declares.
    NewFile,
    /// The name that the file's identifier is made of.
    NameBytes,
    /// The owner that the file's identifier is made of.
    OwnerBytes,
    /// The salt that the file's identifier is made of.
    Salt,
    /// The bytes of the file.
    Content,
    /// The name of a node that was declared before.
    OldNode,
    /// The name of a file that was declared before.
    OldFile,
    /// A key.
    Key,
    /// How many nodes an insert asks for.
    CopyCount,
    /// How many deliveries a settle makes.
    SettleCount,
    /// How many deliveries a shuffle makes.
    ShuffleCount,
    /// The number of a message.
    MessageNumber,
    /// The seed of a shuffle.
    Seed,
    /// How many times a delivery is made.
    DupCount,
    /// The bytes of a noise.
    NoiseBytes,
}

impl Form {
    /// What the words behind the first stand for, in order.
    pub fn parts(self) -> &'static [Part]
        ensures { result.now ≡ parts_of self }
    {
        match self {
            Form::Node => &[Part::NewNode, Part::NewIdentifier],
            Form::File => &[
                Part::NewFile,
                Part::NameBytes,
                Part::OwnerBytes,
                Part::Salt,
                Part::Content,
            ],
            Form::First | Form::GiveUp => &[Part::OldNode],
            Form::Join => &[Part::OldNode, Part::OldNode],
            Form::Lookup => &[Part::OldNode, Part::Key],
            Form::Insert => &[Part::OldNode, Part::OldFile, Part::CopyCount],
            Form::Fetch | Form::Reclaim => &[Part::OldNode, Part::OldFile],
            Form::Settle => &[Part::SettleCount],
            Form::Deliver => &[Part::MessageNumber],
            Form::Shuffle => &[Part::Seed, Part::ShuffleCount],
            Form::Dup => &[Part::DupCount],
            Form::Noise => &[Part::OldNode, Part::NoiseBytes],
        }
    }
}

/// The form of a line with this first word. None where no line begins with it.
pub fn form_with(word: &[u8]) -> Option<Form>
    ensures { result ≡ form_of word.now }
{
    if spells(word, "node") {
        Some(Form::Node)
    } else if spells(word, "file") {
        Some(Form::File)
    } else if spells(word, "first") {
        Some(Form::First)
    } else if spells(word, "join") {
        Some(Form::Join)
    } else if spells(word, "lookup") {
        Some(Form::Lookup)
    } else if spells(word, "insert") {
        Some(Form::Insert)
    } else if spells(word, "fetch") {
        Some(Form::Fetch)
    } else if spells(word, "reclaim") {
        Some(Form::Reclaim)
    } else if spells(word, "giveup") {
        Some(Form::GiveUp)
    } else if spells(word, "settle") {
        Some(Form::Settle)
    } else if spells(word, "deliver") {
        Some(Form::Deliver)
    } else if spells(word, "shuffle") {
        Some(Form::Shuffle)
    } else if spells(word, "dup") {
        Some(Form::Dup)
    } else if spells(word, "noise") {
        Some(Form::Noise)
    } else {
        None
    }
}

fn spells(word: &[u8], text: &str) -> bool
    ensures { result ≡ bytes_eq word.now text.now }
{
    word == text.as_bytes()
}
