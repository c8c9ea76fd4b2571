//! Laws of the map. Each is a call that does nothing and ensures the law.
ghost use Rattle.std.specs.Prelude.{◌≡◌, ℕ, ◌&&◌, ◌+◌, ◌<◌, Bool, IsTrue, List, Ok, None, length, count_by, if◌then◌else◌};
ghost use Rattle.std.specs.List.{All};
ghost use Rattle.base_ids.specs.declared.ids.Replica.{Replica};
ghost use Rattle.stage_graph.specs.declared.table.Selector.TheVariants.{Old, Both, New};
ghost use Rattle.token_ring.specs.declared.token.Token.{Token};
ghost use Rattle.tablet_map.specs.declared.tablet.Transition.{Transition};
ghost use Rattle.base_ids.specs.Replicas.{has_replica, has_host, on_distinct_hosts};
ghost use Rattle.tablet_map.specs.Replicas.{hosts_below, same_set};
ghost use Rattle.tablet_map.specs.Tablets.{Tablets, IsMap};
ghost use Rattle.tablet_map.specs.Calls.{least_moving, least_apart, split_of, merge_of, MergeEnds};
ghost use Rattle.tablet_map.specs.Sets.{replicas_at, selected_list};

/// After a split a merge is not refused, and the map is the one before both.
pub fn law_split_then_merge()
    ensures { (tablets : Tablets) → least_moving tablets.list ≡ None → MergeEnds (split_of tablets) tablets (Ok tt) }
{}

/// A split leaves every token's list of replicas.
pub fn law_split_keeps_replicas()
    ensures { (tablets : Tablets) (token : Token) → tablets.log2 < 10 →
        replicas_at (split_of tablets) token.value ≡ replicas_at tablets token.value }
{}

/// A merge leaves every token's set of replicas.
pub fn law_merge_keeps_sets()
    ensures { (tablets : Tablets) (token : Token) → IsMap tablets.log2 tablets.list → 0 < tablets.log2 →
        least_apart tablets.list ≡ None → IsTrue (same_set (replicas_at (merge_of tablets) token.value)
        (replicas_at tablets token.value)) }
{}

/// Of two lists on distinct hosts that are the same as sets, as many replicas pass a test.
pub fn law_same_sets_count_the_same()
    ensures count { (test : Replica → Bool) (a b : List Replica) → IsTrue (on_distinct_hosts a) →
        IsTrue (on_distinct_hosts b) → IsTrue (same_set a b) → count_by test a ≡ count_by test b }
    ensures size { (a b : List Replica) → IsTrue (on_distinct_hosts a) → IsTrue (on_distinct_hosts b) →
        IsTrue (same_set a b) → length a ≡ length b }
{}

/// In a list on distinct hosts below `n`, as many replicas are on hosts that pass a test as there
/// are hosts below `n` that the list has and that pass it.
pub fn law_counts_are_of_hosts()
    ensures { (test : ℕ → Bool) (replicas : List Replica)
        (n : ℕ) → IsTrue (on_distinct_hosts replicas) → All (λ (replica : Replica). replica.host.0 < n) replicas →
        count_by (λ (replica : Replica). test replica.host.0) replicas ≡
        hosts_below n (λ host. has_host replicas (record { 0 = host }) && test host) }
{}

/// How many replicas pass a test in the list with the pending replica behind it, and in the list
/// with it in the leaving one's place.
pub fn law_counts_in_transition()
    ensures both { (test : Replica → Bool) (replicas : List Replica)
        (t : Transition) → count_by test (selected_list Both replicas t) ≡
        count_by test (selected_list Old replicas t) + (if test t.pending then 1 else 0) }
    ensures new { (test : Replica → Bool) (replicas : List Replica)
        (t : Transition) → IsTrue (has_replica replicas t.leaving) →
        count_by test (selected_list New replicas t) + (if test t.leaving then 1 else 0) ≡
        count_by test (selected_list Old replicas t) + (if test t.pending then 1 else 0) }
{}
