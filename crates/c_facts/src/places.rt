//! Places, and what becomes of them.
ghost use Rattle.std.specs.Prelude.{◌≡◌, ◌==◌};
ghost use Rattle.std.specs.Int as int;
ghost use Rattle.c_subset.specs.Meaning.{bits};
ghost use Rattle.c_facts.specs.Known as known;
ghost use Rattle.c_facts.specs.Facts as spec;
ghost use Rattle.c_facts.specs.Views.{places_of};

use crate::known::{Change, Home, Place, Places, Written};
use c_subset::Width;

/// The field of a place.
pub fn field_of(place: Place) -> u32
    ensures { result ≡ known.field_of place }
{
    match place {
        Place::Field(field) => field,
        Place::Bit(field, _) => field,
    }
}

/// That bit of a number.
#[tactic(auto, using(crate::proofs::BitLemmas::high_bit))]
pub fn bit_at(number: u32, bit: u32) -> u32
    ensures { result ≡ int.bit_at number bit }
{
    if bit < 32 { (number >> bit) % 2 } else { 0 }
}

/// The number at a place whose field has that number.
pub fn number_in(place: Place, number: u32) -> u32
    ensures { result ≡ known.number_in place number }
{
    match place {
        Place::Field(_) => number,
        Place::Bit(_, bit) => bit_at(number, bit),
    }
}

/// Whether both places are the same.
pub fn same_place(first: Place, second: Place) -> bool
    ensures { result ≡ spec.same_place first second }
{
    match first {
        Place::Field(own) => match second {
            Place::Field(other) => own == other,
            Place::Bit(_, _) => false,
        },
        Place::Bit(own, bit) => match second {
            Place::Field(_) => false,
            Place::Bit(other, other_bit) => own == other && bit == other_bit,
        },
    }
}

/// Whether both homes are the same.
pub fn same_home(first: Home, second: Home) -> bool
    ensures { result ≡ spec.same_home first second }
{
    same_place(first.place, second.place) && first.value == second.value
}

/// Whether both widths are the same.
pub fn same_width(first: Width, second: Width) -> bool
    ensures { result ≡ (bits first == bits second) }
{
    match first {
        Width::W8 => match second {
            Width::W8 => true,
            Width::W16 | Width::W32 | Width::W64 | Width::W128 => false,
        },
        Width::W16 => match second {
            Width::W16 => true,
            Width::W8 | Width::W32 | Width::W64 | Width::W128 => false,
        },
        Width::W32 => match second {
            Width::W32 => true,
            Width::W8 | Width::W16 | Width::W64 | Width::W128 => false,
        },
        Width::W64 => match second {
            Width::W64 => true,
            Width::W8 | Width::W16 | Width::W32 | Width::W128 => false,
        },
        Width::W128 => match second {
            Width::W128 => true,
            Width::W8 | Width::W16 | Width::W32 | Width::W64 => false,
        },
    }
}

/// What becomes of a place of the field that is written.
fn change_of(written: Written, place: Place) -> Change
    ensures { result ≡ spec.change_of written place }
{
    match written {
        Written::Other => Change::Varies,
        Written::Number(number) => Change::Becomes(number_in(place, number)),
        Written::SetsBits(mask) => match place {
            Place::Field(_) => Change::Varies,
            Place::Bit(_, bit) => {
                if bit_at(mask, bit) == 1 {
                    Change::Becomes(1)
                } else {
                    Change::Stays
                }
            }
        },
        Written::KeepsBits(mask) => match place {
            Place::Field(_) => Change::Varies,
            Place::Bit(_, bit) => {
                if bit_at(mask, bit) == 0 {
                    Change::Becomes(0)
                } else {
                    Change::Stays
                }
            }
        },
    }
}

/// What becomes of a place after a field was written.
pub fn change_at(field: u32, written: Written, place: Place) -> Change
    ensures { result ≡ spec.change_at field written place }
{
    if field_of(place) == field {
        change_of(written, place)
    } else {
        Change::Stays
    }
}

/// Whether two places have something in common: one is the other one, or its field.
fn overlaps(first: Place, second: Place) -> bool
    ensures { result ≡ spec.overlaps first second }
{
    match first {
        Place::Field(own) => own == field_of(second),
        Place::Bit(own, bit) => match second {
            Place::Field(other) => own == other,
            Place::Bit(other, other_bit) => own == other && bit == other_bit,
        },
    }
}

/// Whether a place may change where these may.
pub fn is_touched(places: &Places, place: Place) -> bool
    ensures { result ≡ spec.is_touched (places_of places.now) place }
{
    match places {
        Places::Empty => false,
        Places::One(first, rest) => overlaps(*first, place) || is_touched(rest, place),
    }
}

/// Whether a place is one of these.
pub fn has_place(places: &Places, place: Place) -> bool
    ensures { result ≡ spec.has_place (places_of places.now) place }
{
    match places {
        Places::Empty => false,
        Places::One(first, rest) => same_place(*first, place) || has_place(rest, place),
    }
}

/// Whether a place is one of these, or its field is.
pub fn is_covered(places: &Places, place: Place) -> bool
    ensures { result ≡ spec.is_covered (places_of places.now) place }
{
    has_place(places, Place::Field(field_of(place))) || has_place(places, place)
}

/// Whether each of the first places is one of the second ones, or its field is.
pub fn all_covered(first: &Places, second: &Places) -> bool
    ensures { result ≡ spec.all_covered (places_of first.now) (places_of second.now) }
{
    match first {
        Places::Empty => true,
        Places::One(place, rest) => is_covered(second, *place) && all_covered(rest, second),
    }
}
