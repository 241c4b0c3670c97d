//! What each procedure of a chart costs, and that it is sound.
ghost use Rattle.std.specs.Prelude.{◌<◌, ℕ};
ghost use Rattle.checked_chart.specs.Chart.{Chart};
ghost use Rattle.checked_chart.specs.Valid.{IsValid};
ghost use Rattle.chart_code.specs.Numbers.{Numbers};
ghost use Rattle.layout_bounds.specs.Heights.{StateHeights, ListHeights};
ghost use Rattle.layout_bounds.specs.Lengths.{StateLengths, ListLengths};
ghost use Rattle.layout_bounds.specs.Sound.{SoundStates, SoundLists};
ghost use Rattle.layout_bounds.specs.Works.{StateWorks, ListWorks};

/// In code that knows the states and the names of a valid chart each procedure of the chart is
/// sound, where those that it calls have lower numbers: it names what is there, passes over no end,
/// has the right types, and ends in a return.
pub fn procedures_are_sound()
    ensures states { (c : Chart) (N : Numbers) (n p : ℕ) → IsValid c → p < n → SoundStates c N n p }
    ensures lists { (c : Chart) (n p : ℕ) → IsValid c → p < n → SoundLists c n p }
{}

/// How many instructions each procedure has: by the statements of a block, the children of a state,
/// and the transitions of a list.
pub fn lengths_of_procedures()
    ensures states { (c : Chart) (N : Numbers) → IsValid c → StateLengths c N }
    ensures lists { ListLengths }
{}

/// How high each procedure is, by the heights of those that it calls.
pub fn heights_of_procedures()
    ensures states { (c : Chart) (N : Numbers) (h : ℕ → ℕ) → IsValid c → StateHeights c N h }
    ensures lists { (h : ℕ → ℕ) → ListHeights h }
{}

/// How much work each procedure is, by the works of those that it calls.
pub fn works_of_procedures()
    ensures states { (c : Chart) (N : Numbers) (w : ℕ → ℕ) → IsValid c → StateWorks c N w }
    ensures lists { (w : ℕ → ℕ) → ListWorks w }
{}
