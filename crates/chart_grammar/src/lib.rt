//! The grammar of chart texts, with its limits.
//!
//! It is LL(1): the token at hand chooses the production, by FIRST sets, which are called
//! `.._heads`. A nullable production reads nothing where no token of its FIRST set is at hand. A
//! limit is part of its production: what is one too many isn't spelled. The proofs show this for
//! each production.
//!
//! Read the definitions in this order: `specs/Limits.antt`, `specs/Words.antt`,
//! `specs/Expressions.antt`, `specs/Transitions.antt`, `specs/Types.antt`,
//! `specs/Declarations.antt`, `specs/States.antt`, `specs/Refusals.antt`.
#![tactic(auto)]
