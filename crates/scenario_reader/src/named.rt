//! What is declared under a name, found by a mark of the name.

ghost use Rattle.std.specs.Prelude.{◌≡◌, bytes_eq, find, option_map};
ghost use Rattle.scenario_reader.specs.Marks.{mark_of, marks_by};

use memchr::memchr;

/// A line that declares something under a name.
pub(crate) trait Named {
    ghost use Rattle.std.specs.Prelude.{◌≡◌, ℕ, List};

    ghost name_of: { Self → List ℕ };

    fn name(&self) -> &[u8]
        ensures { result.now ≡ name_of self.now };
}

/// The mark of a name, a byte. Few names of a scenario share one.
pub(crate) fn mark_of(name: &[u8]) -> u8
    ensures { result ≡ mark_of name.now }
{
    let mut mark: u8 = 0;
    for byte in name {
        mark = mark.wrapping_mul(31).wrapping_add(*byte);
    }
    mark
}

/// What is declared under a name, of items with these marks.
pub(crate) fn find_named<'a, T: Named>(items: &'a [T], marks: &[u8], name: &[u8]) -> Option<&'a T>
    requires { marks.now ≡ marks_by T.name_of items.now }
    ensures { option_map (λ item. item.now) result ≡ find (λ item. bytes_eq (T.name_of item) name.now) items.now }
{
    let mark = mark_of(name);
    let mut from = 0;
    while let Some(step) = memchr(mark, &marks[from..]) {
        let place = from + step;
        let item = &items[place];
        if item.name() == name {
            return Some(item);
        }
        from = place + 1;
    }
    None
}
