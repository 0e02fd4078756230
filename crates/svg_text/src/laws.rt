//! Laws of pictures over their definitions. The functions do nothing: their contracts are what is proved.

ghost use Rattle.std.specs.Prelude.{◌≡◌, ℕ, List, true};
ghost use Rattle.std.specs.List.{list_all};
ghost use Rattle.svg_text.specs.Escaped.{escaped, is_plain};

/// Words that are escaped are printable, and have no `<`, `>` or double quote left: so they neither begin nor end a piece.
pub fn words_are_escaped()
    ensures { (words : List ℕ) → list_all is_plain (escaped words) ≡ true }
{}
