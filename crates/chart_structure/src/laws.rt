//! What holds of every net and of every checked chart.
ghost use Rattle.std.specs.Prelude.{◌≡◌, ◌≤◌, ℕ, Option};
ghost use Rattle.active_config.specs.Tree.{IsTree};
ghost use Rattle.chart_tree.specs.declared.first.FaultAt.{FaultAt};
ghost use Rattle.chart_tree.specs.First.{IsFirst};
ghost use Rattle.checked_chart.specs.declared.limits.TheConstants as limits;
ghost use Rattle.checked_chart.specs.Chart.{Chart};
ghost use Rattle.checked_chart.specs.Reached.{ChartPairs};
ghost use Rattle.checked_chart.specs.Valid.{HasStructure};
ghost use Rattle.chart_structure.specs.Charts.{net_of_chart};
ghost use Rattle.chart_structure.specs.Erased.{erased};
ghost use Rattle.chart_structure.specs.Net.{Net, IsNet};
ghost use Rattle.chart_structure.specs.Reached.{NetPairs};
ghost use Rattle.chart_structure.specs.Structure.{StructureFault, PairFault};
ghost use Rattle.chart_structure.specs.Valid.{IsValid};

/// A net without faults is valid.
pub fn faultless_nets_are_valid()
    ensures { (n : Net) → IsNet n → ((f : FaultAt) → StructureFault n f → ⊥)
        → ((f : FaultAt) → PairFault n f → ⊥) → IsValid n }
{}

/// A valid net has no fault.
pub fn valid_nets_are_faultless()
    ensures structure { (n : Net) (f : FaultAt) → IsNet n → IsValid n → StructureFault n f → ⊥ }
    ensures pairs { (n : Net) (f : FaultAt) → IsNet n → IsValid n → PairFault n f → ⊥ }
{}

/// A valid net is valid without its places.
pub fn valid_nets_need_no_places()
    ensures { (n : Net) → IsValid n → IsValid (erased n) }
{}

/// Where the net of a chart is valid, the chart has its structure, and its pairs keep their limit.
pub fn charts_of_valid_nets_have_structure()
    ensures structure { (c : Chart) → IsTree c.tree → IsValid (net_of_chart c) → HasStructure c }
    ensures pairs { (c : Chart) (count : ℕ) → IsValid (net_of_chart c) → ChartPairs c count
        → count ≤ limits.PAIR_LIMIT }
{}

/// Where a chart has its structure and its pairs keep their limit, its net is valid.
pub fn charts_with_structure_have_valid_nets()
    ensures { (c : Chart) → IsTree c.tree → HasStructure c
        → ((count : ℕ) → ChartPairs c count → count ≤ limits.PAIR_LIMIT) → IsValid (net_of_chart c) }
{}

/// A chart has exactly one number of pairs of a list and a transition, and so has a net.
pub fn a_chart_has_one_number_of_pairs()
    ensures chart { (c : Chart) → (count : ℕ) × ChartPairs c count
        × ((other : ℕ) → ChartPairs c other → other ≡ count) }
    ensures net { (n : Net) → (count : ℕ) × NetPairs n count
        × ((other : ℕ) → NetPairs n other → other ≡ count) }
{}

/// Of the faults of structure of a net one is the first, or there is none.
pub fn a_net_has_a_first_fault_or_none()
    ensures { (n : Net) → IsNet n
        → (fault : Option FaultAt) × IsFirst (StructureFault n) fault }
{}
