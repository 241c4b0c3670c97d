//! What holds of every resolved chart without faults.
ghost use Rattle.std.specs.Prelude.{◌≡◌, ◌<◌, ℕ, []};
ghost use Rattle.active_config.specs.Tree.{state_count, comp_of};
ghost use Rattle.chart_tree.specs.declared.first.FaultAt.{FaultAt};
ghost use Rattle.chart_structure.specs.Net.{word_of};
ghost use Rattle.chart_structure.specs.Structure.{StructureFault, PairFault};
ghost use Rattle.checked_chart.specs.Valid.{IsValid};
ghost use Rattle.resolved_tree.specs.Plain.{chart_of};
ghost use Rattle.resolved_tree.specs.Promise.{KeepsPromise};
ghost use Rattle.resolved_tree.specs.Resolved.{Resolved};
ghost use Rattle.chart_types.specs.Types.{inits_faults, type_faults};
ghost use Rattle.chart_check.specs.Nets.{net_of};

/// A resolved chart without faults of types, of structure and of the number of pairs stands for a
/// valid chart.
pub fn faultless_charts_are_valid()
    ensures { (r : Resolved) → KeepsPromise r → type_faults r ≡ []
        → ((f : FaultAt) → StructureFault (net_of r) f → ⊥)
        → ((f : FaultAt) → PairFault (net_of r) f → ⊥) → IsValid (chart_of r) }
{}

/// A resolved chart that stands for a valid chart has no faults of types, where its first values
/// have none. It has no faults of structure and of the number of pairs, where each composition word
/// is the composition of its state in the tree: a state without children may have a word, which is
/// a fault, and is a leaf of the chart.
pub fn valid_charts_have_no_faults()
    ensures types { (r : Resolved) → KeepsPromise r → IsValid (chart_of r)
        → inits_faults r.names.vars r.inits ≡ [] → type_faults r ≡ [] }
    ensures structure { (r : Resolved) (f : FaultAt) → KeepsPromise r
        → ((s : ℕ) → s < state_count r.tree → word_of (net_of r) s ≡ comp_of r.tree s)
        → IsValid (chart_of r) → StructureFault (net_of r) f → ⊥ }
    ensures pairs { (r : Resolved) (f : FaultAt) → KeepsPromise r
        → ((s : ℕ) → s < state_count r.tree → word_of (net_of r) s ≡ comp_of r.tree s)
        → IsValid (chart_of r) → PairFault (net_of r) f → ⊥ }
{}
