//! What each procedure of the code of a chart is of, and words for it.
//!
//! Read `specs/Parts.antt`, the parts in the order of the procedures; `specs/PartKeys.antt`, the
//! key of a part in the layout; `specs/PartText.antt`, the words; and `specs/Plain.antt`, why they
//! can stand in a comment of C. The public calls are `chart_parts` and `append_part`.
#![tactic(auto)]

mod groups;
mod laws;
mod part;
mod regions;
mod text;
mod transitions;

pub use laws::{each_part_has_its_key, words_can_stand_in_a_comment};
pub use part::{Owner, Part, Toward, TransPart};
pub use regions::chart_parts;
pub use text::{append_part, append_state};
