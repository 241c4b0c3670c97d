//! The laws of trees in which counters count.
ghost use Rattle.std.specs.List.{AllByRecursion};
ghost use Rattle.std.specs.Prelude.{◌≡◌, ◌≢◌, ◌↔◌, ◌<◌, ℕ, nat_le, min, List, Option, Some, Ok};
ghost use Rattle.std.specs.Prelude.{slice_get, Contains};
ghost use Rattle.fixed_point.specs.declared.rounding.TheConstants.{READ_LIMIT};
ghost use Rattle.flow_base.specs.declared.bounds.Bounds.{Bounds};
ghost use Rattle.flow_base.specs.declared.fault.Fault.{Fault};
ghost use Rattle.token_grammar.specs.declared.token.Span.{Span};
ghost use Rattle.actions.specs.declared.event.Event.{Event};
ghost use Rattle.actions.specs.declared.expr.Value.TheVariants.{Flag};
ghost use Rattle.actions.specs.Runs.{Moment, EventWithInputs, CanBeGiven};
ghost use Rattle.actions.specs.Values.{value_of};
ghost use Rattle.actions.specs.World.{World};
ghost use Rattle.chart_tree.specs.Trees as trees;
ghost use Rattle.checked_chart.specs.Chart.{Chart};
ghost use Rattle.chart_places.specs.Scopes.{scopes_of};
ghost use Rattle.chart_scope.specs.Uses.{resolved_expr};
ghost use Rattle.resolved_tree.specs.Plain.{plain_expr};
ghost use Rattle.sos_rules.specs.Reactions.{Starts, Reacts, RulesRun};
ghost use Rattle.counting_rules.specs.Numbers.{has_counted};
ghost use Rattle.counting_rules.specs.Reactions.{CountingStarts, CountingReacts, CountingRun};
ghost use Rattle.counting_rules.specs.Reactions.{counting_start_upto, counting_react_upto};
ghost use Rattle.counting_log.specs.Log.{Note, since};
ghost use Rattle.counting_log.specs.Reactions.{logged_start_upto, logged_react_upto};
ghost use Rattle.counting_log.specs.Runs.{LoggedRun};
ghost use Rattle.counting_log.specs.Tells.{Tells};
ghost use Rattle.counting_log.specs.Times.{IsCount};
ghost use Rattle.counting_trees.specs.Assigns.{AssignsOnly};
ghost use Rattle.counting_trees.specs.Counters.{Counter, number, counter_end, after_test};
ghost use Rattle.counting_trees.specs.Counting.{counting, IsReady};
ghost use Rattle.counting_trees.specs.Numbers.{counters_for, counter_number, event_number};
ghost use Rattle.counting_trees.specs.Written.{IsChartOf, IsWrittenOut, IsCounterIn};

/// Where the tree in which counters count has no fault, the tree without counting has none, and the
/// chart of the first is that of the second with its counters written out.
pub fn counting_trees_are_written_out()
    ensures { (ks : List (List Counter)) (t : trees.Chart) (d : Chart) → IsReady ks t
        → IsChartOf (counting ks t) d → (c : Chart) × IsWrittenOut ks t c d }
{}

/// The chart of the tree in which counters count does by the operational rules what the chart of
/// the tree without counting does by the rules with counters, and nothing else.
pub fn counting_trees_count()
    ensures start { (ks : List (List Counter)) (t : trees.Chart) (c d : Chart) (b : Bounds)
        (w : World) (f : Option Fault) → IsWrittenOut ks t c d
        → Starts d b w f ↔ CountingStarts c (counters_for ks t) b w f }
    ensures reaction { (ks : List (List Counter)) (t : trees.Chart) (c d : Chart) (b : Bounds)
        (w v : World) (e : Event) (f : Option Fault) → IsWrittenOut ks t c d
        → Reacts d b w e v f ↔ CountingReacts c (counters_for ks t) b w e v f }
    ensures run { (ks : List (List Counter)) (t : trees.Chart) (c d : Chart) (b : Bounds)
        (events : List EventWithInputs) (moments : List Moment) → IsWrittenOut ks t c d
        → RulesRun d b events moments ↔ CountingRun c (counters_for ks t) b events moments }
{}

/// Each counter of a state is a datum, 0 at first and no input, that counts its event for that
/// state and nothing else.
pub fn counters_belong_to_states()
    ensures { (ks : List (List Counter)) (t : trees.Chart) (c d : Chart) (s : ℕ)
        (own : List Counter) (k : Counter) → IsWrittenOut ks t c d → slice_get ks s ≡ Some own → Contains own k
        → IsCounterIn ks t c s k }
{}

/// Where no statement of the text assigns to the counter by its name, it is exactly the number of
/// times that the chart was processed with its event since its state was last entered, or the
/// greatest number of 32 bits where that is less: after the start, after each reaction, and at each
/// moment, up to the first fault, of every run of the chart in which it is written out, over events
/// with inputs that can be given.
pub fn counters_of_a_text_are_exact()
    ensures start { (ks : List (List Counter)) (t : trees.Chart) (c d : Chart) (s : ℕ)
        (k : Counter) (b : Bounds) (n : ℕ) → IsWrittenOut ks t c d → IsCounterIn ks t c s k
        → AssignsOnly (λ name. name ≢ k.name) t
        → Tells (IsCount (counter_number t k) s (event_number t k) counter_end)
        (logged_start_upto c (counters_for ks t) b n)
        (counting_start_upto c (counters_for ks t) b n) }
    ensures reaction { (ks : List (List Counter)) (t : trees.Chart) (c d : Chart) (s : ℕ)
        (k : Counter) (b : Bounds) (n : ℕ) (w : World) (log : List Note) (event : Event)
        → IsWrittenOut ks t c d → IsCounterIn ks t c s k → AssignsOnly (λ name. name ≢ k.name) t
        → IsCount (counter_number t k) s (event_number t k) counter_end w log
        → Tells (IsCount (counter_number t k) s (event_number t k) counter_end)
        (logged_react_upto c (counters_for ks t) b w log event n)
        (counting_react_upto c (counters_for ks t) b w event n) }
    ensures run { (ks : List (List Counter)) (t : trees.Chart) (c d : Chart) (s : ℕ)
        (k : Counter) (b : Bounds) (events : List EventWithInputs) (moments : List Moment)
        → IsWrittenOut ks t c d → IsCounterIn ks t c s k → AssignsOnly (λ name. name ≢ k.name) t
        → AllByRecursion (CanBeGiven c.names) events
        → RulesRun d b events moments → LoggedRun c (counters_for ks t) b
        (IsCount (counter_number t k) s (event_number t k) counter_end) events moments }
{}

/// `after(n, E)` in a text is the test whether its counter has counted to n; and where the counter
/// is exact, it is whether the chart was processed n times with the event since the state was last
/// entered, up to the greatest number of 32 bits.
pub fn after_is_a_test()
    ensures test { (t : trees.Chart) (k : Counter) (n s : ℕ) (at place : Span) → n < READ_LIMIT
        → plain_expr (resolved_expr (scopes_of t) s (after_test k (trees.Lit (number n) place) at))
        ≡ has_counted (counter_number t k) n }
    ensures value { (v s e n : ℕ) (w : World) (log : List Note) → IsCount v s e counter_end w log
        → value_of w.vals w.marks (has_counted v n)
        ≡ Ok (Flag (nat_le n (min (since s e log) counter_end))) }
{}
