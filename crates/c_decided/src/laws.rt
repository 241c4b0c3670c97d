//! What holds of a file with decided tests.
ghost use Rattle.std.specs.Prelude.{◌≡◌, true, false};
ghost use Rattle.c_subset.specs.Trees.{File, Local, Bang, End, Set, If, Return};
ghost use Rattle.c_decided.specs.Decided.{Plan};
ghost use Rattle.c_decided.specs.Examples.{word, is_child, gives, calls, was, made};
ghost use Rattle.c_decided.specs.Made.{FileIsMade, CallsAreKept};

/// In a file with decided tests a call returns what it did, from each struct in which the facts of
/// its function hold, with the same fuel. It leaves what the plan says for the number that it
/// returned, and changes no other places than those of the plan.
pub fn decided_tests_keep_calls()
    ensures { (P : Plan) (file file' : File) → FileIsMade P file file' → CallsAreKept P file file' }
{}

/// What is decided in small bodies: single cases.
pub fn tests_of_small_bodies_are_decided()
    ensures up { (made (If (is_child 1 3) (If (is_child 0 2) (gives 0) (gives 2) End) End
        (gives 0))).block ≡ If (is_child 1 3) (gives 0) End (gives 0) }
    ensures returned { (made (calls (If (Bang (was 0)) (If (is_child 1 4) (gives 1) (gives 2) End)
        End (gives 0)))).block ≡ calls (If (Bang (was 0)) (gives 1) End (gives 0)) }
    ensures passed { (made (calls (Return (Local word 4)))).right ≡ true }
    ensures other { (made (If (is_child 1 3) (gives 1) End (gives 0))).right ≡ false }
    ensures forgotten { (made (calls (Set word 4 (Local word 5)
        (If (Bang (was 0)) (If (is_child 1 4) (gives 0) (gives 2) End) End (gives 0))))).right
        ≡ false }
{}
