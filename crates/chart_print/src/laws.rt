//! Laws of canonical texts.
ghost use Rattle.std.specs.Prelude.{◌≡◌};
ghost use Rattle.chart_tree.specs.Trees.{Chart};
ghost use Rattle.chart_print.specs.Canonical.{canonical};
ghost use Rattle.chart_print.specs.Places.{without_places, AreSameApartFromPlaces};

/// Charts that are the same apart from the places of their parts have one canonical text.
pub fn places_are_not_printed()
    ensures erased { (c : Chart) → canonical (without_places c) ≡ canonical c }
    ensures same { (c d : Chart) → AreSameApartFromPlaces c d → canonical c ≡ canonical d }
{}
