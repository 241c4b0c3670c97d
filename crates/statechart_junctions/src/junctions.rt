//! Junctions.
ghost use Rattle.std.specs.Prelude.{◌≡◌, map};
ghost use Rattle.token_grammar.specs.Token.{lexemes, Gives};
ghost use Rattle.statechart_tree.specs.Views.{trans_of, junction_of};
ghost use Rattle.chart_grammar.specs.Limits.{usual};
ghost use Rattle.statechart_grammar.specs.States as states;
ghost use Rattle.statechart_tokens.specs.Counts.{counts_of};
ghost use Rattle.statechart_junctions.specs.Told.{told};

use crate::transitions::junction_trans;
use flow_base::List;
use statechart_tokens::{Group, Reader};
use statechart_tree::{SourceJunction, SourceTrans};
use token_grammar::{Kind, ReadError};

/// The transitions of a junction.
fn junction_list(reader: &mut Reader<'_, '_>) -> Result<Vec<SourceTrans>, ReadError>
    ensures { Gives
        (λ v. record { value = map trans_of v.items; counts = counts_of reader.new.counts })
        result (lexemes reader.new.rest.now)
        (told (counts_of reader.old.counts)
        ((states.junction_list usual (counts_of reader.old.counts)).reads
        (lexemes reader.old.rest.now))) }
{
    let mut found = Vec::new(reader.alloc);
    'items: while reader.is_at_one_of(Group::Transitions) {
        let item = junction_trans(reader)?;
        found.push(item)?;
    }
    Ok(found)
}

/// A junction with its transitions.
///
/// One that is too many is refused at the word `junction`.
#[tactic(auto, unfolding(statechart_grammar::specs::States::junction))]
pub fn junction(reader: &mut Reader<'_, '_>) -> Result<SourceJunction, ReadError>
    ensures { Gives (λ j. record { value = junction_of j; counts = counts_of reader.new.counts })
        result (lexemes reader.new.rest.now)
        ((states.junction usual (counts_of reader.old.counts)).reads
        (lexemes reader.old.rest.now)) }
{
    let refused = reader.counts.junction_refused();
    reader.allowed_token(Kind::Junction, refused)?;
    reader.counts = reader.counts.after_junction();
    let name = reader.name()?;
    reader.token(Kind::OpenBrace)?;
    let list = junction_list(reader)?;
    let junction = SourceJunction {
        name,
        list: List::of(list),
    };
    reader.closed_by(Kind::CloseBrace, junction)
}
