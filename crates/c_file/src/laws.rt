//! What holds of the two files of a chart.
ghost use Rattle.std.specs.Prelude.{◌≡◌, ◌≢◌, ℕ, List, [], ◌∷◌, ◌++◌, Bool, Some, true, slice_get};
ghost use Rattle.std.specs.List.{list_all};
ghost use Rattle.active_config.specs.Tree.{Tree};
ghost use Rattle.actions.specs.Names.{Names};
ghost use Rattle.actions.specs.declared.names.EventDecl.{EventDecl};
ghost use Rattle.chart_lexer.specs.Words.{is_name};
ghost use Rattle.chart_parts.specs.Plain.{IsPlain};
ghost use Rattle.c_file.specs.declared.calls.FunctionCall.{FunctionCall};
ghost use Rattle.c_file.specs.Calls.{calls_from};
ghost use Rattle.c_file.specs.Changing.{AreChanging, only_reads};
ghost use Rattle.c_file.specs.Comments.{copy_words};
ghost use Rattle.flow_base.specs.declared.bounds.Bounds.{Bounds};
ghost use Rattle.checked_chart.specs.Chart.{Chart};
ghost use Rattle.code_language.specs.Code.{Code};
ghost use Rattle.code_passes.specs.declared.tag.Tag.{Tag};
ghost use Rattle.c_file.specs.Facts.{AreFacts};
ghost use Rattle.c_file.specs.Files.{IsCodeFor, IsWritten, names_in, source_for};
ghost use Rattle.c_file.specs.Order.{calls_by, is_called, is_early, times};
ghost use Rattle.c_functions.specs.Files.{shape_of};
ghost use Rattle.c_functions.specs.Plans.{Tests};
ghost use Rattle.c_functions.specs.Starts.{HasShape};
ghost use Rattle.c_subset.specs.declared.trees.Width.{Width};
ghost use Rattle.c_subset.specs.Meaning.{CValue, Store};
ghost use Rattle.c_subset.specs.Running.{Returns, call};
ghost use Rattle.c_subset.specs.Trees.{File, Function};
ghost use Rattle.c_header.specs.declared.facts.SourceFacts.{SourceFacts};
ghost use Rattle.c_header.specs.declared.identity.Identity.{Identity};
ghost use Rattle.c_header.specs.Header.{calls_number};
ghost use Rattle.c_text.specs.Labels.{Labels};

/// The smaller code of a chart is one, and so are the numbers that its procedures had: the header
/// and the source of a chart are for the same smaller code.
pub fn the_smaller_code_of_a_chart_is_one()
    ensures { (c : Chart) (k k' : Code) (origins origins' : List ℕ) → IsCodeFor c k origins
        → IsCodeFor c k' origins' → (k ≡ k') × (origins ≡ origins') }
{}

/// The header of a chart declares the struct of its source, where both have room for as many
/// outputs and as many notes, which a C compiler checks: what has the shape of the one has that of
/// the other.
pub fn the_struct_of_the_header_is_that_of_the_source()
    ensures { (c : Chart) (b b' : Bounds) (k k' : Code) (tags tags' : List Tag)
        (origins origins' : List ℕ) (T T' : Tests) (limits limits' : Bounds) (room room' : ℕ)
        (s : Store) → IsWritten c b k tags origins → IsWritten c b' k' tags' origins' → room ≡ room'
        → (shape_of k T limits room).notes ≡ (shape_of k' T' limits' room').notes
        → HasShape (shape_of k T limits room) s → HasShape (shape_of k' T' limits' room') s }
{}

/// Where a function of a file only reads the struct, so do those that it calls, so that a struct
/// that is const goes to no function that may change it; and a call of it leaves the struct as it
/// was, with so much fuel, for these arguments and from that struct.
pub fn functions_that_only_read_leave_the_struct()
    ensures calls { (L : Labels) (functions : List Function) (changing : List Bool) (i : ℕ)
        (call : FunctionCall) → AreChanging L functions changing
        → slice_get (calls_from 0 functions) i ≡ Some call → only_reads changing call.caller ≡ true
        → only_reads changing call.callee ≡ true }
    ensures left { (L : Labels) (file : File) (changing : List Bool) (int : Width) (k f : ℕ)
        (xs : List CValue) (s after : Store) (x : CValue) → AreChanging L file.functions changing
        → only_reads changing f ≡ true → call file int k f xs s ≡ Returns after x → after ≡ s }
{}

/// The source for code of a chart is one for the functions of its file, but for the order in which
/// they stand and the number of calls with which it compares that of the header: which functions are
/// written, and which of them may change the struct, is told by the functions.
pub fn the_source_for_code_is_one()
    ensures { (c : Chart) (T : Tests) (limits : Bounds) (room : ℕ) (k : Code) (origins : List ℕ)
        (tags : List Tag) (identity : Identity) (facts facts' : SourceFacts)
        (functions : List Function) (written written' changing changing' : List Bool)
        (order : List ℕ)
        → AreFacts (names_in c k) functions written facts
        → AreFacts (names_in c k) functions written' facts'
        → AreChanging (names_in c k) functions changing
        → AreChanging (names_in c k) functions changing'
        → calls_number facts.calls ≡ calls_number facts'.calls
        → source_for c T limits room k origins tags facts functions written changing order identity
        ≡ source_for c T limits room k origins tags facts' functions written' changing' order
        identity }
{}

/// Each call stands behind the function that is called, or behind its declaration: where a function
/// of the order calls another one that doesn't stand before it, the other one is called before it
/// stands, so that it is declared before all functions, or in the header.
pub fn each_call_stands_behind_a_declaration()
    ensures { (functions : List Function) (before after : List ℕ) (f g : ℕ) → times g before ≡ 0
        → f ≢ g → is_called g (calls_by functions f) ≡ true
        → is_early functions (before ++ f ∷ after) g ≡ true }
{}

/// The words for what a copy of a procedure is for are one line in which no comment of C ends,
/// where states and events have names.
pub fn words_for_copies_can_stand_in_a_comment()
    ensures { (t : Tree) (n : Names) (tag : Tag) → list_all is_name n.states ≡ true
        → list_all (λ (e : EventDecl). is_name e.name) n.events ≡ true
        → IsPlain (copy_words t n tag) }
{}
