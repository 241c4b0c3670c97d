//! What holds of the subset.
ghost use Rattle.std.specs.Prelude.{◌≡◌, ◌≢◌, ◌≤◌, ℕ, suc, pos, negsuc, List, [], ◌∷◌, Some};
ghost use Rattle.std.specs.Prelude.{slice_get, true};
ghost use Rattle.fixed_point.specs.Numbers.{floor_div};
ghost use Rattle.c_subset.specs.Trees.{Width, W8, W16, W32, CType, Signed, Unsigned, Plus, Less};
ghost use Rattle.c_subset.specs.Trees.{Times, Quotient, Remainder, BitAnd};
ghost use Rattle.c_subset.specs.Trees.{CExpr, Const, Field, Element, Local, Cast, Minus, Calc};
ghost use Rattle.c_subset.specs.Trees.{Divide, Bits, Both, StoreAt, Block, End, Function, File};
ghost use Rattle.c_subset.specs.Meaning.{bits, fits_signed, is_true, CValue, Object, Store, Locals};
ghost use Rattle.c_subset.specs.Meaning.{Wrong, gives, meaning};
ghost use Rattle.c_subset.specs.Running.{Calls, outcome, call, no_locals, no_values, Returns};
ghost use Rattle.c_subset.specs.Running.{Starves, GoesWrong};
ghost use Rattle.c_subset.specs.Helpers.{floor_function};

/// A call of the helper for quotients gives the greatest whole number that is at most the quotient,
/// for a divisor other than 0, where both arguments and that number are values of the type. No step
/// of its body is undefined, and the struct stays as it is.
pub fn the_helper_gives_the_floor()
    ensures { (file : File) (int w : Width) (k f : ℕ) (s : Store) (x y : CValue) →
        slice_get file.functions f ≡ Some (floor_function w) → fits_signed (bits w) x.value ≡ true →
        fits_signed (bits w) y.value ≡ true → is_true y.value ≡ true →
        fits_signed (bits w) (floor_div x.value y.value) ≡ true →
        call file int (suc k) f (x ∷ y ∷ []) s
        ≡ Returns s (record { type = Signed w; value = floor_div x.value y.value }) }
{}

/// Nothing is read before it is stored: in a struct that was given no value, and among locals that
/// were given none, every field, every element and every local is without a meaning.
pub fn nothing_is_read_before_it_is_stored()
    ensures local { (int : Width) (s : Store) (t : CType) (k : ℕ) → meaning int s no_locals
        (Local t k) ≡ Wrong }
    ensures field { (file : File) (int : Width) (l : Locals) (f : ℕ) →
        meaning int (no_values file) l (Field f) ≡ Wrong }
    ensures element { (file : File) (int : Width) (l : Locals) (a : ℕ) (e : CExpr) →
        meaning int (no_values file) l (Element a e) ≡ Wrong }
{}

/// What C99 leaves undefined or to the implementation is Wrong, and what it defines is not: single
/// cases where int has 32 bits.
pub fn what_is_undefined_is_wrong()
    ensures sum { (s : Store) (l : Locals) → meaning W32 s l
        (Calc Plus (Const (Signed W32) (pos 2147483647)) (Const (Signed W32) (pos 1))) ≡ Wrong }
    ensures promoted_sum { (s : Store) (l : Locals) → meaning W32 s l
        (Calc Plus (Const (Signed W8) (pos 127)) (Const (Signed W8) (pos 1))) ≡ gives (Signed W32)
        (pos 128) }
    ensures promoted_product { (s : Store) (l : Locals) → meaning W32 s l
        (Calc Times (Const (Unsigned W16) (pos 65535)) (Const (Unsigned W16) (pos 65535))) ≡ Wrong }
    ensures unsigned_difference { (s : Store) (l : Locals) → meaning W32 s l
        (Calc Less (Const (Unsigned W32) (pos 0)) (Const (Unsigned W32) (pos 1)))
        ≡ gives (Unsigned W32) (pos 4294967295) }
    ensures negative { (s : Store) (l : Locals) → meaning W32 s l
        (Minus (Const (Signed W32) (negsuc 2147483647))) ≡ Wrong }
    ensures divisor { (s : Store) (l : Locals) → meaning W32 s l
        (Divide Quotient (Const (Signed W32) (pos 7)) (Const (Signed W32) (pos 0))) ≡ Wrong }
    ensures quotient { (s : Store) (l : Locals) → meaning W32 s l
        (Divide Quotient (Const (Signed W32) (negsuc 6)) (Const (Signed W32) (pos 2)))
        ≡ gives (Signed W32) (negsuc 2) }
    ensures remainder { (s : Store) (l : Locals) → meaning W32 s l
        (Divide Remainder (Const (Signed W32) (negsuc 2147483647)) (Const (Signed W32) (negsuc 0)))
        ≡ Wrong }
    ensures conversion { (s : Store) (l : Locals) → meaning W32 s l
        (Cast (Signed W8) (Const (Signed W32) (pos 300))) ≡ Wrong }
    ensures reduction { (s : Store) (l : Locals) → meaning W32 s l
        (Cast (Unsigned W8) (Const (Signed W32) (pos 300))) ≡ gives (Unsigned W8) (pos 44) }
    ensures bits_of_int { (s : Store) (l : Locals) → meaning W32 s l
        (Bits BitAnd (Const (Signed W32) (pos 6)) (Const (Signed W32) (pos 3))) ≡ Wrong }
    ensures bits_of_unsigned { (s : Store) (l : Locals) → meaning W32 s l
        (Bits BitAnd (Const (Unsigned W32) (pos 6)) (Const (Unsigned W32) (pos 3)))
        ≡ gives (Unsigned W32) (pos 2) }
    ensures not_evaluated { (s : Store) → meaning W32 s no_locals
        (Both (Const (Signed W32) (pos 0)) (Local (Signed W32) 0)) ≡ gives (Signed W32) (pos 0) }
    ensures index { (l : Locals) (o : Object) (fields : List Object) →
        meaning W32 (record { fields = fields; rows = (o ∷ []) ∷ [] }) l
        (Element 0 (Const (Unsigned W32) (pos 1)))
        ≡ Wrong }
    ensures index_of_a_store { (calls : Calls) (k : ℕ) (l : Locals) (o : Object)
        (fields : List Object)
        (rest : Block) → outcome W32 calls k
        (StoreAt 0 (Const (Unsigned W32) (pos 1)) (Const (Unsigned W32) (pos 0)) rest)
        (record { fields = fields; rows = (o ∷ []) ∷ [] }) l ≡ GoesWrong }
    ensures no_value_returned { (file : File) (int : Width) (k f : ℕ) (s : Store) (t : CType) →
        slice_get file.functions f ≡ Some (record { result = t; parameters = []; body = End }) →
        call file int (suc k) f [] s ≡ GoesWrong }
{}

/// More fuel changes nothing: a call that ends with some fuel ends so with any more, and one that
/// goes wrong does too.
pub fn more_fuel_changes_nothing()
    ensures { (file : File) (int : Width) (k j f : ℕ) (xs : List CValue) (s : Store) → k ≤ j →
        call file int k f xs s ≢ Starves → call file int j f xs s ≡ call file int k f xs s }
{}
