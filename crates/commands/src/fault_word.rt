//! The word of a fault of a run.
ghost use Rattle.std.specs.Prelude.{◌≡◌, ◌≤◌, Some, length};
ghost use Rattle.chart_lexer.specs.declared.words.TheConstants.{NAME_LIMIT};
ghost use Rattle.actions.specs.Names.{names_of};
ghost use Rattle.trace_text.specs.Trace as lines;
ghost use Rattle.commands.specs.NetRules.{no_names};
ghost use Rattle.commands.specs.Trace.{HasShortNames};

use actions::Names;
use arrayvec::ArrayString;
use chart_lexer::NAME_LIMIT;
use flow_base::Fault;
use std::marker::Model;

/// Room for a word: `overflow`, a space and a name.
const WORD_ROOM: usize = 9 + NAME_LIMIT;

/// The word of a fault of a run, as the trace shows it. A contract sees its bytes.
#[derive(Drop)]
pub struct FaultWord {
    text: ArrayString<WORD_ROOM>,
}

impl Model for FaultWord {
    ghost use Rattle.std.specs.Prelude.{List, ℕ};

    ghost Value = { List ℕ };

    ghost view = { λ w. w.text.bytes };
}

impl FaultWord {
    /// The word of a fault in a run of a program that declares those names. It takes no memory.
    pub fn of(names: &Names, fault: Fault) -> FaultWord
        requires { HasShortNames (names_of names.now) }
        ensures { result ≡ lines.result_word (names_of names.now) (Some fault) }
    {
        let mut text = ArrayString::new();
        match fault {
            Fault::Depth => text.push_str("depth"),
            Fault::Steps => text.push_str("steps"),
            Fault::Zero => text.push_str("zero"),
            Fault::Overflow(datum) => {
                text.push_str("overflow ");
                text.push_str(datum_name(names, datum));
            }
        }
        FaultWord { text }
    }

    /// The word of a fault, where no names are known. It takes no memory.
    pub(crate) fn without_names(fault: Fault) -> FaultWord
        ensures { result ≡ lines.result_word no_names (Some fault) }
    {
        let mut text = ArrayString::new();
        match fault {
            Fault::Depth => text.push_str("depth"),
            Fault::Steps => text.push_str("steps"),
            Fault::Zero => text.push_str("zero"),
            Fault::Overflow(_) => text.push_str("overflow "),
        }
        FaultWord { text }
    }

    /// The word. It takes no memory.
    pub fn text(&self) -> &str
        ensures { result.now ≡ self.now }
    {
        self.text.as_str()
    }
}

/// The name of a datum; nothing where there is no datum of that number.
fn datum_name(names: &Names, datum: u32) -> &str
    requires { HasShortNames (names_of names.now) }
    ensures name { result.now ≡ lines.datum_name (names_of names.now) datum }
    ensures short { length result.now ≤ NAME_LIMIT }
{
    match names.vars.items().get(datum as usize) {
        Some(var) => var.name.text(),
        None => "",
    }
}
