//! Blocks.
ghost use Rattle.std.specs.Prelude.{◌≡◌, IfOk};
ghost use Rattle.token_grammar.specs.Token.{lexemes, Gives};
ghost use Rattle.flow_base.specs.Lists.{items_of};
ghost use Rattle.statechart_tree.specs.Views.{stmt_of, block_of};
ghost use Rattle.chart_grammar.specs.Limits.{usual};
ghost use Rattle.statechart_grammar.specs.Transitions as grammar;
ghost use Rattle.statechart_tokens.specs.Counts.{counts_of};

use crate::statements::stmt;
use flow_base::List;
use statechart_tokens::{Group, Reader};
use statechart_tree::SourceStmt;
use token_grammar::{Kind, ReadError};

/// A statement of a block that has `before` of them before it.
#[tactic(auto, unfolding(statechart_grammar::specs::Transitions::next_stmt))]
fn next_stmt(reader: &mut Reader<'_, '_>, before: u32) -> Result<SourceStmt, ReadError>
    ensures read { Gives stmt_of result (lexemes reader.new.rest.now)
        ((grammar.next_stmt usual
        (record { statements = before; counts = counts_of reader.old.counts })).reads
        (lexemes reader.old.rest.now)) }
    ensures counts { reader.new.counts ≡ reader.old.counts }
{
    match reader.counts.statement_refused(before) {
        Some(fault) if reader.is_at_one_of(Group::Statements) => Err(ReadError::Fault(fault)),
        _ => stmt(reader),
    }
}

/// The statements of a block.
fn stmts(reader: &mut Reader<'_, '_>) -> Result<Vec<SourceStmt>, ReadError>
    ensures read { Gives (λ v. block_of v.items) result (lexemes reader.new.rest.now)
        ((grammar.stmts usual
        (record { statements = 0; counts = counts_of reader.old.counts })).reads
        (lexemes reader.old.rest.now)) }
    ensures counts { IfOk result (λ v. counts_of reader.new.counts
        ≡ grammar.after_stmts (counts_of reader.old.counts) (block_of v.items)) }
{
    let mut found = Vec::new(reader.alloc);
    let mut before: u32 = 0;
    'items: while reader.is_at_one_of(Group::Statements) {
        let item = next_stmt(reader, before)?;
        found.push(item)?;
        before += 1;
        reader.counts.items += 1;
    }
    Ok(found)
}

/// The statements between braces.
///
/// A statement that is one too many of its block, or one item too many of the statechart, is refused
/// at its first token.
#[tactic(auto, unfolding(statechart_grammar::specs::Transitions::block))]
pub fn block(reader: &mut Reader<'_, '_>) -> Result<List<SourceStmt>, ReadError>
    ensures read { Gives (λ b. block_of (items_of b)) result (lexemes reader.new.rest.now)
        ((grammar.block usual (counts_of reader.old.counts)).reads
        (lexemes reader.old.rest.now)) }
    ensures counts { IfOk result (λ b. counts_of reader.new.counts
        ≡ grammar.after_stmts (counts_of reader.old.counts) (block_of (items_of b))) }
{
    reader.token(Kind::OpenBrace)?;
    let found = stmts(reader)?;
    reader.token(Kind::CloseBrace)?;
    Ok(List::of(found))
}
