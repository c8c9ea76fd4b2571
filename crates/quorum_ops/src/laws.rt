// What answers bring when they are taken one by one.
ghost use Rattle.std.specs.Prelude.{◌≡◌, ◌≢◌, ◌≤◌, ◌||◌, ◌++◌, ℕ, List, [], ◌∷◌, length, IsTrue};
ghost use Rattle.base_ids.specs.declared.ids.LaneId.{LaneId};
ghost use Rattle.base_ids.specs.declared.ids.OpId.{OpId};
ghost use Rattle.base_ids.specs.declared.ids.Replica.{Replica};
ghost use Rattle.stage_graph.specs.declared.kind.Kind.{Kind};
ghost use Rattle.quorum_tally.specs.declared.tally.Mark.{Mark};
ghost use Rattle.quorum_tally.specs.Standings.{mark_of};
ghost use Rattle.quorum_ops.specs.declared.data.Answer.{Answer};
ghost use Rattle.quorum_ops.specs.declared.taking.Taking.{Taking};
ghost use Rattle.quorum_ops.specs.Decision.{decision, timeout_reply};
ghost use Rattle.quorum_ops.specs.Pending.{Pending, PendingRead, IsUndecided, pending_of, pending_read_of, after_answer, read_after_answer, write_taking, read_taking, timeout_of};
ghost use Rattle.quorum_ops.specs.Taken.{pending_by, pending_read_by, taking_by, write_outcome, read_outcome, first_decision, is_stranger, is_repeat};

/// The laws of a write and a read that take answers: what is seen of a request is what the definitions
/// say of the answers that it took, and taking a whole list one by one, up to the first answer that
/// decides, gives the first decision that the definition finds in that list. A request that is given up
/// replies by the answers that it took. It does nothing: its clauses are what it is for.
pub fn decision_laws()
    ensures write_stands { (lane : LaneId) (op : OpId) (targets : List Replica) (need : ℕ) (earlier : List Answer)
        (answer : Answer) → after_answer (pending_by lane op targets need earlier) answer ≡
        pending_by lane op targets need (answer ∷ earlier) }
    ensures write_decides { (lane : LaneId) (op : OpId) (targets : List Replica) (need : ℕ) (earlier : List Answer)
        (answer : Answer) → write_taking (pending_by lane op targets need earlier) answer ≡
        taking_by (decision Kind.Write targets need (answer ∷ earlier)) }
    ensures write_list { (lane : LaneId) (op : OpId) (targets : List Replica) (need : ℕ)
        (answers : List Answer) → write_outcome (pending_of lane op targets need) answers ≡
        first_decision Kind.Write targets need [] answers }

    ensures read_stands { (lane : LaneId) (op : OpId) (targets : List Replica) (need : ℕ) (earlier : List Answer)
        (answer : Answer) → read_after_answer (pending_read_by lane op targets need earlier) answer ≡
        pending_read_by lane op targets need (answer ∷ earlier) }
    ensures read_decides { (lane : LaneId) (op : OpId) (targets : List Replica) (need : ℕ) (earlier : List Answer)
        (answer : Answer) → read_taking (pending_read_by lane op targets need earlier) answer ≡
        taking_by (decision Kind.Read targets need (answer ∷ earlier)) }
    ensures read_list { (lane : LaneId) (op : OpId) (targets : List Replica) (need : ℕ)
        (answers : List Answer) → read_outcome (pending_read_of lane op targets need) answers ≡
        first_decision Kind.Read targets need [] answers }

    ensures write_timeout { (lane : LaneId) (op : OpId) (targets : List Replica) (need : ℕ)
        (answers : List Answer) → timeout_of (pending_by lane op targets need answers) ≡
        timeout_reply targets need answers }
    ensures read_timeout { (lane : LaneId) (op : OpId) (targets : List Replica) (need : ℕ)
        (answers : List Answer) → timeout_of (pending_read_by lane op targets need answers).request ≡
        timeout_reply targets need answers }
{}

/// The laws of answers that do not count: one of a replica that was not asked, and one of a replica that
/// answered before. Taken by a request that is undecided, as it is when it begins and stays while nothing
/// decides it, such an answer changes nothing and decides nothing; wherever it stands in a list, the list's
/// first decision is the same without it.
pub fn idle_laws()
    ensures begins_undecided { (lane : LaneId) (op : OpId) (targets : List Replica)
        (need : ℕ) → 1 ≤ need → need ≤ length targets → IsUndecided (pending_of lane op targets need) }
    ensures stays_undecided { (kind : Kind) (lane : LaneId) (op : OpId) (targets : List Replica) (need : ℕ)
        (earlier : List Answer) (answer : Answer) → IsUndecided (pending_by lane op targets need earlier) →
        decision kind targets need (answer ∷ earlier) ≡ None →
        IsUndecided (pending_by lane op targets need (answer ∷ earlier)) }

    ensures write_unless_fresh { (write : Pending) (answer : Answer) → IsUndecided write →
        mark_of write.tally answer.from ≢ Mark.Fresh →
        (after_answer write answer ≡ write) × (write_taking write answer ≡ Taking.Waiting) }
    ensures read_unless_fresh { (read : PendingRead) (answer : Answer) → IsUndecided read.request →
        mark_of read.request.tally answer.from ≢ Mark.Fresh →
        (read_after_answer read answer ≡ read) × (read_taking read answer ≡ Taking.Waiting) }

    ensures list { (kind : Kind) (targets : List Replica) (need : ℕ) (before later : List Answer)
        (answer : Answer) → 1 ≤ need → need ≤ length targets →
        IsTrue (is_stranger targets answer.from || is_repeat before answer.from) →
        first_decision kind targets need [] (before ++ answer ∷ later) ≡
        first_decision kind targets need [] (before ++ later) }
{}
