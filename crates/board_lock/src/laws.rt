//! Laws of what desks see, each the contract of a function that does nothing but cite the laws below it.
ghost use Rattle.std.specs.Prelude.{◌≡◌, ℕ, ◌≤◌, true, List, [], ◌∷◌, ◌++◌};
ghost use mathlib.Core.List.{IsPrefix};
ghost use Rattle.dimension_core.specs.Setting.{Setting};
ghost use Rattle.move_core.specs.declared.moves.Move.{Move};
ghost use Rattle.board_rules.specs.declared.call.Call.{Call};
ghost use Rattle.board_rules.specs.declared.call.Call.TheVariants.{Propose};
ghost use Rattle.board_rules.specs.declared.call.Entry.{Entry};
ghost use Rattle.board_rules.specs.declared.reply.Reply.{Reply};
ghost use Rattle.board_rules.specs.declared.reply.Reply.TheVariants.{Committed};
ghost use Rattle.board_rules.specs.History.{Opening, state_after};
ghost use Rattle.published_board.specs.Shelves.{view_of};
ghost use Rattle.board_lock.specs.Commits.{Legal, Submitted};
ghost use Rattle.board_lock.specs.Verdicts.{is_verdict};

use board_rules::{histories_go_on, histories_grow_by_entries};

/// What a desk committed is in every later view. A view's version, which is the number of commits, never falls as entries come, and where
/// the last entry of a legal history has the reply `Committed(n)`, the version is n. So once a call of a desk was answered with
/// `Committed(n)`, each view of what this desk sees from then on has version n or above, and after the desk met another one, each view of
/// what that one sees too.
pub fn commits_stay_in_views()
    ensures rises { (s : Setting) (before later : List Entry) → IsPrefix before later
        → (view_of (state_after s before)).version ≤ (view_of (state_after s later)).version }
    ensures last { (o : Opening) (es : List Entry) (e : Entry) (n : ℕ) → Legal o (es ++ e ∷ []) → e.reply ≡ Committed n
        → (view_of (state_after o.setting (es ++ e ∷ []))).version ≡ n }
    ensures own { (o : Opening) (desk own n : ℕ) (call : Call) (before seen later : List Entry)
        → Submitted o desk own call (Committed n) before seen → IsPrefix seen later
        → n ≤ (view_of (state_after o.setting later)).version }
    ensures met { (o : Opening) (desk own n : ℕ) (call : Call) (before seen met later : List Entry)
        → Submitted o desk own call (Committed n) before seen → IsPrefix seen met → IsPrefix met later
        → n ≤ (view_of (state_after o.setting later)).version }
{
    histories_grow_by_entries();
    histories_go_on();
}

/// A proposal that a desk submitted is committed or denied: it has no other reply.
pub fn proposals_have_verdicts()
    ensures { (o : Opening) (desk own session base : ℕ) (mv : Move) (reply : Reply) (before seen : List Entry)
        → Submitted o desk own (Propose session base mv) reply before seen → is_verdict reply ≡ true }
{}
