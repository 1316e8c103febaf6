//! What the order of picks means, whatever was picked before: of the ready threads of greatest priority
//! the one picked longest ago comes next, those never picked first, by their numbers. Lemmas on the
//! order stand in proofs/.
#![tactic(auto)]

ghost use Rattle.std.specs.Prelude.{◌≡◌, ◌<◌, ◌↔◌, ℕ, List, Some, None, All, false, length};
ghost use Rattle.def_sched.specs.declared.Status.{Status};
ghost use Rattle.def_sched.specs.Statuses.{is_ready};
ghost use Rattle.def_sched.specs.Picks.{pick, IsOrder};
ghost use Rattle.def_sched.specs.Records.{order_after, IsFairPick};

/// After any list of picks each thread stands in the order once; a thread is picked exactly where it
/// is the fair pick, and none exactly where none is ready.
pub fn picks_are_fair()
    ensures order { (count : ℕ) (picks : List ℕ)
        → All (λ t. t < count) picks
        → IsOrder count (order_after count picks) }
    ensures fair { (count t : ℕ) (priorities : List ℕ) (statuses : List Status) (picks : List ℕ)
        → All (λ t. t < count) picks
        → (pick priorities statuses (order_after count picks) ≡ Some t) ↔ IsFairPick count
        priorities statuses picks t }
    ensures none { (priorities : List ℕ) (statuses : List Status) (picks : List ℕ)
        → All (λ t. t < length statuses) picks
        → (pick priorities statuses (order_after (length statuses) picks) ≡ None) ↔ All
        (λ s. is_ready s ≡ false) statuses }
{}
