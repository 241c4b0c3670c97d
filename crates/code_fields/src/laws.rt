//! What spellings promise, for all data, events and expressions at once.
ghost use Rattle.std.specs.Prelude.{◌≡◌, ℕ, List, Some};
ghost use Rattle.actions.specs.declared.names.EventDecl.{EventDecl};
ghost use Rattle.actions.specs.declared.names.Var.{Var};
ghost use Rattle.actions.specs.Exprs.{Expr};
ghost use Rattle.code_fields.specs.Spelling.{IsVar, var_line, IsEvent, event_line, IsExpr, expr_words};
ghost use Rattle.code_fields.specs.Fields.{var_of, event_of};
ghost use Rattle.code_fields.specs.Expressions.{expr_of};

/// The line of a datum is read as it, and no other line is.
pub fn data_have_one_line()
    ensures read { (v : Var) → IsVar v → var_of (var_line v) ≡ Some v }
    ensures spelled { (line : List ℕ) (v : Var) → var_of line ≡ Some v
        → (line ≡ var_line v) × IsVar v }
{}

/// The line of an event is read as it, and no other line is.
pub fn events_have_one_line()
    ensures read { (x : EventDecl) → IsEvent x → event_of (event_line x) ≡ Some x }
    ensures spelled { (line : List ℕ) (x : EventDecl) → event_of line ≡ Some x
        → (line ≡ event_line x) × IsEvent x }
{}

/// The words of an expression are read as it, and no other text is.
pub fn expressions_have_one_text()
    ensures read { (x : Expr) → IsExpr x → expr_of (expr_words x) ≡ Some x }
    ensures spelled { (text : List ℕ) (x : Expr) → expr_of text ≡ Some x
        → (text ≡ expr_words x) × IsExpr x }
{}
