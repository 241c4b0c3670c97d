//! What stores put into fields, and what becomes of what is known.
ghost use Rattle.std.specs.Prelude.{◌≡◌, IfOk};
ghost use Rattle.c_subset.specs.Lines.{expr_of};
ghost use Rattle.c_facts.specs.Asking as spec;
ghost use Rattle.c_facts.specs.Views.{known_of, places_of, rows_of};

use crate::constants::{constant_of, field_in, single_bit, single_gap, unsigned_of};
use crate::known::{Constant, Known, Place, Places, Rows, Written};
use crate::places::{has_place, is_covered, same_width};
use crate::rows::{is_numbered, stored_in, width_at};
use c_subset::{Bitwise, CExpr, Width};
use flow_base::Memory;
use std::alloc::Global;

/// A number, where it has that width.
fn number_written(width: Width, constant: Option<Constant>) -> Written
    ensures { result ≡ spec.number_written width constant }
{
    match constant {
        None => Written::Other,
        Some(found) => {
            if same_width(found.width, width) {
                Written::Number(found.number)
            } else {
                Written::Other
            }
        }
    }
}

/// `m->f = m->g & C` and `m->f = m->g | C`
fn mask_written(op: Bitwise, mask: u32) -> Written
    ensures { result ≡ spec.mask_written op mask }
{
    match op {
        Bitwise::BitAnd => Written::KeepsBits(mask),
        Bitwise::BitOr => Written::SetsBits(mask),
    }
}

/// Bits of a field that has a number of that width, by the field to which they go, the field and
/// the mask.
fn bits_written(
    width: Width,
    field: u32,
    op: Bitwise,
    own: Option<u32>,
    mask: Option<Constant>,
) -> Written
    ensures { result ≡ spec.bits_written width field op own mask }
{
    match own {
        None => Written::Other,
        Some(source) => match mask {
            None => Written::Other,
            Some(found) => {
                if field == source && same_width(found.width, width) {
                    mask_written(op, found.number)
                } else {
                    Written::Other
                }
            }
        },
    }
}

/// What `m->f = e;` puts into a field that has that width, and a number or maybe none.
fn written_in(numbered: bool, width: Width, field: u32, expr: &CExpr) -> Written
    ensures { result ≡ spec.written_in numbered width field (expr_of expr.now) }
{
    match expr {
        CExpr::Const(of, value) => number_written(width, unsigned_of(*of, *value)),
        CExpr::Bits(op, left, right) => {
            if numbered {
                bits_written(width, field, *op, field_in(left), constant_of(right))
            } else {
                Written::Other
            }
        }
        CExpr::Field(..)
        | CExpr::Element(..)
        | CExpr::Local(..)
        | CExpr::Cast(..)
        | CExpr::Minus(..)
        | CExpr::Bang(..)
        | CExpr::Calc(..)
        | CExpr::Divide(..)
        | CExpr::Compare(..)
        | CExpr::Both(..)
        | CExpr::Either(..)
        | CExpr::Choose(..) => Written::Other,
    }
}

/// What `m->f = e;` puts into the field by what is known.
fn written(field: u32, expr: &CExpr, rows: &Rows) -> Written
    ensures { result ≡ spec.written field (expr_of expr.now) (rows_of rows.now) }
{
    match width_at(rows, field) {
        None => Written::Other,
        Some(width) => written_in(is_numbered(rows, field), width, field, expr),
    }
}

/// After `m->f = e;`. `Memory` where there is no memory for it.
pub fn stored(alloc: Global, field: u32, expr: &CExpr, known: &Known) -> Result<Known, Memory>
    ensures { IfOk result (λ after. known_of after
        ≡ spec.stored field (expr_of expr.now) (known_of known.now)) }
{
    match known {
        Known::Never => Ok(Known::Never),
        Known::Of(rows) => {
            let value = written(field, expr, rows);
            Ok(Known::Of(stored_in(alloc, rows, field, value)?))
        }
    }
}

/// Whether the bit of the field is covered.
fn bit_covered(places: &Places, field: u32, bit: Option<u32>) -> bool
    ensures { result ≡ spec.bit_covered (places_of places.now) field bit }
{
    match bit {
        None => false,
        Some(own) => is_covered(places, Place::Bit(field, own)),
    }
}

/// Whether what is written into the field changes only these places.
fn may_write(places: &Places, width: Width, field: u32, written: Written) -> bool
    ensures { result ≡ spec.may_write (places_of places.now) width field written }
{
    match written {
        Written::Other | Written::Number(_) => false,
        Written::SetsBits(mask) => bit_covered(places, field, single_bit(32, mask)),
        Written::KeepsBits(mask) => {
            same_width(width, Width::W32) && bit_covered(places, field, single_gap(32, mask))
        }
    }
}

/// Whether what is written into the field changes only these places, where nothing may be known of
/// it.
fn may_write_by(places: &Places, width: Option<Width>, field: u32, written: Written) -> bool
    ensures { result ≡ spec.may_write_by (places_of places.now) width field written }
{
    match width {
        None => false,
        Some(own) => may_write(places, own, field, written),
    }
}

/// Whether `m->f = e;` changes only these places.
pub fn may_store(places: &Places, field: u32, expr: &CExpr, known: &Known) -> bool
    ensures { result
        ≡ spec.may_store (places_of places.now) field (expr_of expr.now) (known_of known.now) }
{
    match known {
        Known::Never => true,
        Known::Of(rows) => {
            has_place(places, Place::Field(field))
                || may_write_by(
                    places,
                    width_at(rows, field),
                    field,
                    written(field, expr, rows),
                )
        }
    }
}
