//! The grammar of statechart texts, with its limits.
//!
//! It is LL(1): the token at hand chooses the production, by FIRST sets, which are called
//! `.._heads`. A nullable production reads nothing where no token of its FIRST set is at hand. A
//! limit is part of its production: what is one too many isn't spelled. The further words are of
//! one kind, and which of them may stand somewhere is part of the production, too. The proofs show
//! this for each production. What isn't said here is as in a chart text.
//!
//! Read the definitions in this order: `specs/Words.antt`, `specs/Expressions.antt`,
//! `specs/Transitions.antt`, `specs/Declarations.antt`, `specs/States.antt`.
#![tactic(auto)]
