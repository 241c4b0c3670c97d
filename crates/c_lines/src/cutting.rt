//! Lines cut by a backslash.
ghost use Rattle.std.specs.Prelude.{◌≡◌, ◌++◌, ◌∷◌, [], chars, encode_utf8_all, string_bytes, OnOk};
ghost use Rattle.c_lines.specs.Cut as spec;

use std::alloc::AllocError;

/// How many letters a line has at most before it is cut.
const LONGEST: u32 = 508;

/// Appends a letter where so many letters fit.
fn print_letter(out: &mut String, room: u32, letter: char) -> Result<(), AllocError>
    ensures { OnOk result (string_bytes out.new
        ≡ string_bytes out.old ++ encode_utf8_all (spec.cut_text room letter)) }
{
    if room == 0 && letter != '\n' {
        out.push_str("\\\n")?;
    }
    out.push(letter)
}

/// How many letters fit after a letter where so many fit.
fn room_after(room: u32, letter: char) -> u32
    ensures { result ≡ spec.room_after room letter }
{
    if letter == '\n' {
        LONGEST
    } else if room == 0 {
        LONGEST - 1
    } else {
        room - 1
    }
}

/// Appends a text with its lines cut.
pub(crate) fn print_cut(out: &mut String, text: &str) -> Result<(), AllocError>
    ensures { OnOk result (string_bytes out.new ≡ string_bytes out.old
        ++ encode_utf8_all (spec.cut (chars text.now))) }
{
    let mut room = LONGEST;
    for letter in text.chars() {
        print_letter(out, room, letter)?;
        room = room_after(room, letter);
    }
    Ok(())
}
