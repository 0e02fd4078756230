//! Laws of courses over their definitions. The functions do nothing: their contracts are what is proved.

ghost use Rattle.std.specs.Prelude.{◌≡◌, ◌<◌, ◌≤◌, ◌+◌, length, take, true, List, Some, ℕ, slice_get, All, Contains};
ghost use Rattle.ring_math.specs.Names.{Id};
ghost use Rattle.wire_msg.specs.Words.{Envelope};
ghost use Rattle.overlay_rules.specs.declared.entry.Entry.{Entry as PlainEntry};
ghost use Rattle.overlay_rules.specs.Record.{Legal, Setting, sent_in};
ghost use Rattle.course_picture.specs.Arrows.{arrow_to, arrows, sent_at};
ghost use Rattle.course_picture.specs.Board as plain;
ghost use Rattle.course_picture.specs.Board.{is_drawn, x_of};
ghost use Rattle.course_picture.specs.Laws.{Delivers, HasArrow, IsInOrder, IsOfMessage};

/// Each arrow stands for a message of the record: it begins at the entry that sent the message, and ends at one that delivered
/// it, or at the lower edge where one behind the window did; it is dashed exactly where an earlier entry delivered the message
/// too, and ends in a cross only where none did.
pub fn each_arrow_is_of_a_message()
    ensures { (b : plain.Board) (es : List PlainEntry) → All (IsOfMessage b es) (arrows b es) }
{}

/// Each message has its arrow: one to each entry of the window that delivers it, and one at least where an entry of the window
/// sent it. For the second, no entry delivers a message before it is sent.
pub fn each_message_has_its_arrow()
    ensures delivered { (b : plain.Board) (es : List PlainEntry) (p m : ℕ) (v : Envelope) → is_drawn b p ≡ true → Delivers es p m →
        slice_get (sent_in es) m ≡ Some v → Contains (arrows b es) (arrow_to es m v p) }
    ensures sent { (b : plain.Board) (es : List PlainEntry) (m : ℕ) (v : Envelope) → IsInOrder es → slice_get (sent_in es) m ≡ Some v →
        is_drawn b (sent_at es m) ≡ true → HasArrow (arrows b es) m }
{}

/// In a legal record no entry delivers a message before it is sent; nor does one in a record of which only the last entry is not
/// legal.
pub fn legal_records_are_in_order()
    ensures { (g : Setting) (es : List PlainEntry) (n : ℕ) → Legal g (take n es) → length es ≤ n + 1 → IsInOrder es }
{}

/// The lifelines of nodes stand apart, in the order of the identifiers.
pub fn nodes_stand_apart()
    ensures { (b : plain.Board) (x y : Id) → Contains b.nodes y → x < y → x_of b x < x_of b y }
{}
