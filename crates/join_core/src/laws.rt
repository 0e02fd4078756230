//! That the calls of a joiner are the rows of a node's step.

ghost use Rattle.std.specs.Prelude.{◌≡◌, ℕ, List, Option};
ghost use Rattle.ring_math.specs.Sides.{leaves};
ghost use Rattle.coverage.specs.GapFiles.{Lists};
ghost use Rattle.wire_msg.specs.declared.reply.Why.{Why};
ghost use Rattle.overlay_rules.specs.State.{State, Phase, Leasing};
ghost use Rattle.overlay_rules.specs.Joining.{join_in, join_reply_in, probe_reply_in, first_left, first_right, grant_in, with_grant, refuse_in, deny_in};
ghost use Rattle.overlay_rules.specs.Joining.{learnt_of, give_up_in};
ghost use Rattle.overlay_rules.specs.ReadyTest.{ready_test_in};
ghost use Rattle.join_core.specs.Joining.{joiner_of, begin_of};
ghost use Rattle.join_core.specs.Probes.{reply_of, probe_step_of};
ghost use Rattle.join_core.specs.Leases.{grant_step_of, marked, finished_of};
ghost use Rattle.join_core.specs.Ends.{refused_of, denied_of, given_up_of};
ghost use Rattle.join_core.specs.Outcomes.{begun_by, replied_by, probed_by, granted_by, finished_by, ended_by, given_up_by};

/// For every state and phase, each row of a joiner is what the call's answer makes of the state, where the joiner is that
/// of the phase.
pub fn rows_law()
    ensures begin { (s : State) (number via : ℕ) (p : Phase) → join_in s number via p ≡ begun_by s number via (begin_of (joiner_of p)) }
    ensures on_reply { (s : State) (a : ℕ) (known : List ℕ) (p : Phase) →
        join_reply_in s a known p ≡ replied_by s known (joiner_of p) (reply_of (joiner_of p) a (leaves s.me known)) }
    ensures on_probe_reply { (s : State) (from a : ℕ) (known : List ℕ) (p : Phase) →
        probe_reply_in s from a known p ≡ probed_by s from known (joiner_of p)
        (probe_step_of (joiner_of p) from a (leaves s.me known) (first_left s known) (first_right s known)) }
    ensures on_grant { (s : State) (from a : ℕ) (lists : Lists) (p : Phase) →
        grant_in s from a lists p ≡ granted_by s from a lists p (grant_step_of (joiner_of p) from a) }
    // the marks stand for the lists that are kept
    ensures marks { (s : State) (from : ℕ) (lists : Lists) (a n l r : ℕ) (from_left from_right : Option Lists) →
        joiner_of (with_grant s from lists (Leasing a n l r from_left from_right)).phase ≡ marked (joiner_of (Leasing a n l r from_left from_right)) from }
    ensures finish { (s : State) (p : Phase) → ready_test_in s p ≡ finished_by s p (finished_of (joiner_of p)) }
    ensures on_refuse { (s : State) (from a : ℕ) (w : Why) (p : Phase) → refuse_in s from a w p ≡ ended_by s s.known from w (refused_of (joiner_of p) a) }
    ensures on_deny { (s : State) (from a : ℕ) (w : Why) (p : Phase) → deny_in s from a w p ≡ ended_by s (learnt_of s w) from w (denied_of (joiner_of p) a) }
    ensures give_up { (s : State) (n : ℕ) (p : Phase) → give_up_in s n p ≡ given_up_by s n (given_up_of (joiner_of p)) }
{}
