//! Tests of states.
use crate::file_shape::FileShape;
use crate::pairs::both_made;
use crate::words::number;
use active_config::Comp;
use c_subset::{Bitwise, CExpr, CType, Comparison, Width};
use fixed_point::power_of_two;
use flow_base::Memory;
use std::alloc::Global;

impl FileShape<'_> {
    ghost use Rattle.std.specs.Prelude.{◌≡◌, ◌<◌, suc, IfOk, IfSome};
    ghost use Rattle.active_config.specs.Tree.{state_count, parent_of, comp_of, children_of};
    ghost use Rattle.c_subset.specs.Trees as c;
    ghost use Rattle.c_subset.specs.Lines.{expr_of};
    ghost use Rattle.c_functions.specs.States as states;
    ghost use Rattle.c_functions.specs.Layout as spec;
    ghost use Rattle.c_functions.specs.Plans.{layout};
    ghost use Rattle.c_shape.specs.FileShapes.{shape_seen};

    /// The test that a field has the number of a child.
    pub fn number_test(&self, alloc: Global, field: u32, child: u32) -> Result<CExpr, Memory>
        ensures { IfOk result (λ test.
            expr_of test ≡ spec.number_test (layout (shape_seen self.now)) field child) }
    {
        let constant = CExpr::Const(CType::Unsigned(Width::W16), i128::from(child));
        CExpr::compare(alloc, Comparison::IsEqual, CExpr::Field(field), constant)
    }

    /// The test that the bit of a state is set.
    pub fn bit_test(&self, alloc: Global, state: u32) -> Result<CExpr, Memory>
        requires { state < state_count (shape_seen self.now).tree }
        ensures { IfOk result (λ test.
            expr_of test ≡ spec.bit_test (layout (shape_seen self.now)) state) }
    {
        let word = CExpr::Field(self.word_field(state));
        let bit = CExpr::Const(CType::Unsigned(Width::W32), power_of_two(state % 32));
        let bits = CExpr::bits(alloc, Bitwise::BitAnd, word, bit)?;
        CExpr::compare(alloc, Comparison::IsUnequal, bits, number(0))
    }

    /// The parent of a state, where it is an OR.
    pub fn or_parent(&self, state: u32) -> Option<u32>
        requires { state < state_count (shape_seen self.now).tree }
        ensures parent { result ≡ states.or_parent (shape_seen self.now).tree
            (parent_of (shape_seen self.now).tree state) }
        ensures before { IfSome result (λ parent. parent < state) }
    {
        let parent = self.tree.parent(state)?;
        match self.tree.comp(parent) {
            Comp::Or => Some(parent),
            Comp::Leaf | Comp::And => None,
        }
    }

    /// The test that a state is active.
    #[tactic(auto, unfolding(c_functions::specs::Layout::on_c))]
    pub fn on_test(&self, alloc: Global, state: u32) -> Result<CExpr, Memory>
        requires { state < state_count (shape_seen self.now).tree }
        ensures { IfOk result (λ test. expr_of test ≡ spec.on_c (shape_seen self.now).tree
            (layout (shape_seen self.now)) (λ x. suc x) state) }
    {
        match self.or_parent(state) {
            Some(parent) => self.number_test(alloc, self.chosen_field(parent), state + 1),
            None => self.bit_test(alloc, state),
        }
    }

    /// The test that the bit of a state isn't set.
    fn unset_test(&self, alloc: Global, state: u32) -> Result<CExpr, Memory>
        requires { state < state_count (shape_seen self.now).tree }
        ensures { IfOk result (λ test.
            expr_of test ≡ c.Bang (spec.bit_test (layout (shape_seen self.now)) state)) }
    {
        let bit = self.bit_test(alloc, state)?;
        CExpr::bang(alloc, bit)
    }

    /// A test, and that the bit of a state isn't set.
    fn and_unset(&self, alloc: Global, test: CExpr, state: u32) -> Result<CExpr, Memory>
        requires { state < state_count (shape_seen self.now).tree }
        ensures { IfOk result (λ made. expr_of made
            ≡ c.Both (expr_of test) (c.Bang (spec.bit_test (layout (shape_seen self.now)) state))) }
    {
        let (test, unset) = both_made(Ok(test), self.unset_test(alloc, state))?;
        CExpr::both(alloc, test, unset)
    }

    /// The test that a state is active and the bit of none of its children is set.
    fn on_and_no_bits(&self, alloc: Global, state: u32) -> Result<CExpr, Memory>
        requires { state < state_count (shape_seen self.now).tree }
        ensures { IfOk result (λ test. expr_of test ≡ spec.and_no_bits
            (layout (shape_seen self.now)) (spec.on_c (shape_seen self.now).tree
            (layout (shape_seen self.now)) (λ x. suc x) state)
            (children_of (shape_seen self.now).tree state)) }
    {
        // Only the proof reads the number of states: they are those of a tree.
        let _ = self.tree.len();
        let mut test = self.on_test(alloc, state)?;
        let mut next = self.tree.first_child(state);
        while let Some(child) = next {
            test = self.and_unset(alloc, test, child)?;
            next = self.tree.next_sibling(child);
        }
        Ok(test)
    }

    /// The test that a state is active and the number of its active child is 0.
    fn on_and_no_number(&self, alloc: Global, state: u32) -> Result<CExpr, Memory>
        requires { state < state_count (shape_seen self.now).tree }
        ensures { IfOk result (λ test. expr_of test ≡ c.Both (spec.on_c (shape_seen self.now).tree
            (layout (shape_seen self.now)) (λ x. suc x) state)
            (spec.number_test (layout (shape_seen self.now))
            ((layout (shape_seen self.now)).chosen state) 0)) }
    {
        let on = self.on_test(alloc, state);
        let childless = self.number_test(alloc, self.chosen_field(state), 0);
        let (on, childless) = both_made(on, childless)?;
        CExpr::both(alloc, on, childless)
    }

    /// The test that a state is active and none of its children is.
    #[tactic(auto, unfolding(c_functions::specs::Layout::bare_c))]
    pub fn bare_test(&self, alloc: Global, state: u32) -> Result<CExpr, Memory>
        requires { state < state_count (shape_seen self.now).tree }
        ensures { IfOk result (λ test. expr_of test ≡ spec.bare_c (shape_seen self.now).tree
            (layout (shape_seen self.now)) (λ x. suc x) state) }
    {
        match self.tree.comp(state) {
            Comp::Or => self.on_and_no_number(alloc, state),
            Comp::Leaf | Comp::And => self.on_and_no_bits(alloc, state),
        }
    }

    /// The test that an OR remembers a state.
    pub fn last_test(&self, alloc: Global, parent: u32, state: u32) -> Result<CExpr, Memory>
        requires parent { parent < state_count (shape_seen self.now).tree }
        requires state { state < state_count (shape_seen self.now).tree }
        ensures { IfOk result (λ test. expr_of test
            ≡ spec.last_c (layout (shape_seen self.now)) (λ x. suc x) parent state) }
    {
        self.number_test(alloc, self.kept_field(parent), state + 1)
    }
}
