//! What holds of the code of every valid chart as a whole.
ghost use Rattle.checked_chart.specs.Chart.{Chart};
ghost use Rattle.checked_chart.specs.Valid.{IsValid};
ghost use Rattle.code_language.specs.WellFormed.{IsCode};
ghost use Rattle.chart_code.specs.Bodies.{code_of_chart};

use layout_bounds::{
    the_code_of_a_chart_has_little_work, the_code_of_a_chart_is_low, the_code_of_a_chart_is_sound,
};

/// The code of a valid chart is well formed: it has few procedures and right tables, and no
/// procedure of it has a fault, is too high or has too much work.
pub fn the_code_of_a_chart_is_well_formed()
    ensures { (c : Chart) → IsValid c → IsCode (code_of_chart c) }
{
    the_code_of_a_chart_is_sound();
    the_code_of_a_chart_is_low();
    the_code_of_a_chart_has_little_work();
}
