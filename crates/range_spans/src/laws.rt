//! What is known of expressions, guards and assignments misses nothing.
ghost use Rattle.std.specs.Prelude.{◌≡◌, ◌<◌, ℕ, List, Bool, true, length, Some, Ok};
ghost use Rattle.fixed_point.specs.declared.num.Num.{Num};
ghost use Rattle.active_config.specs.Marks.{Configuration};
ghost use Rattle.actions.specs.declared.expr.Value.{Value};
ghost use Rattle.actions.specs.declared.expr.Value.TheVariants as values;
ghost use Rattle.actions.specs.Data.{Datum, assigned};
ghost use Rattle.actions.specs.Engines.{IsInputValue};
ghost use Rattle.actions.specs.Exprs.{Expr};
ghost use Rattle.actions.specs.Names.{Names};
ghost use Rattle.actions.specs.Values.{value_of, flag_of};
ghost use Rattle.range_spans.specs.Spans.{Span, IsIn, is_inside};
ghost use Rattle.range_spans.specs.Known.{Tells, Has, guess};
ghost use Rattle.range_spans.specs.Boxes.{
  Box,
  IsBox,
  IsStored,
  Kept,
  CoversInputs,
  freed,
  may_be,
  mode_at,
  narrowed,
  number_kept,
  point,
  put,
  sort_at,
};

/// Where data are in a box, the value of an expression is one of those that are told, or its
/// evaluation divides by 0 where that is told.
pub fn a_guess_tells_the_value()
    ensures value { (n : Names) (always box : Box) (vals : List Datum) (marks : Configuration)
        (e : Expr)
        → IsBox n always box vals → Tells (guess (sort_at n) box marks e) (value_of vals marks e) }
    ensures truth { (n : Names) (always box : Box) (vals : List Datum) (marks : Configuration)
        (e : Expr)
        (x : Value) → IsBox n always box vals → value_of vals marks e ≡ Ok x
        → may_be (flag_of x) (guess (sort_at n) box marks e).known ≡ true }
{}

/// What a guard leaves of a box has the data of the box at which the guard has that truth.
pub fn a_guard_leaves_the_data()
    ensures { (n : Names) (always box : Box) (vals : List Datum) (marks : Configuration) (e : Expr)
        (x : Value) (truth : Bool) → IsBox n always box vals → value_of vals marks e ≡ Ok x
        → flag_of x ≡ truth → IsBox n always (narrowed (sort_at n) e truth box) vals }
{}

/// A datum is in the span that is told of a number or of a flag that is assigned, and overflows
/// only where that is told.
pub fn an_assignment_stays_in_its_span()
    ensures number { (n : Names) (always box : Box) (vals : List Datum) (v : ℕ) (s : Span) (m : Num)
        (k : Kept)
        → IsIn s m.mantissa → Some k ≡ number_kept (sort_at n v) (mode_at n v) s m.frac
        → is_inside k.span (always v) ≡ true → v < length n.vars → IsBox n always box vals
        → IsStored n always (put v k.span box) v k.over (assigned vals v (values.Number m)) }
    ensures flag { (n : Names) (always box : Box) (vals : List Datum) (v : ℕ) (b over : Bool)
        → is_inside (point b) (always v) ≡ true → v < length n.vars → IsBox n always box vals
        → IsStored n always (put v (point b) box) v over (assigned vals v (values.Flag b)) }
{}

/// Where inputs may have any values of their sorts, they may be set to such values.
pub fn inputs_stay_in_their_spans()
    ensures freed { (n : Names) (always box : Box) (vals : List Datum) → IsBox n always box vals
        → IsBox n always (freed n always box) vals }
    ensures set { (n : Names) (always box : Box) (v : ℕ) (value : Value) (vals next : List Datum)
        → CoversInputs n always → IsInputValue n v value → assigned vals v value ≡ Ok next
        → IsBox n always (freed n always box) vals → IsBox n always (freed n always box) next }
{}
