//! What is answered to lines is determined by them.

ghost use Rattle.std.specs.Prelude.{◌≡◌, List, ℕ, Option};
ghost use Rattle.node_process.specs.Talk.{Talk};
ghost use Rattle.node_service.specs.Conversation.{AreLinesAnswered};

/// To lines there is one answer: a text that the rules give for them is the only one, and it leaves the node in one state.
pub fn one_conversation()
    ensures { (p : Option Talk) (lines : List (List ℕ)) (text other : List ℕ) (q r : Option Talk) → AreLinesAnswered p lines text q →
        AreLinesAnswered p lines other r → (text ≡ other) × (q ≡ r) }
{}
