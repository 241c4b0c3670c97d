//! Lines broken at blanks.
ghost use Rattle.std.specs.Prelude.{◌≡◌, ◌++◌, ◌∷◌, [], chars, encode_utf8_all, string_bytes, OnOk};
ghost use Rattle.std.specs.List.{repeat};
ghost use Rattle.c_lines.specs.Broken as spec;

use std::alloc::AllocError;

/// How many letters a line has at most, where blanks allow it.
const WIDTH: u32 = 100;

/// How far into a line a new line can begin that goes on with it, but for the step.
const DEEPEST: u32 = 40;

/// How much further a line begins that goes on with another one.
const STEP: u32 = 4;

/// Where a letter stands in its line.
#[derive(Clone, Copy)]
pub(crate) enum Place {
    /// After blanks alone; so many letters still fit.
    Margin(u32),
    /// After words: how many blanks a line begins with that goes on with this one, and how many
    /// letters still fit.
    Words(u32, u32),
    /// In what stays on its line.
    Whole,
}

/// Whether a line stays whole from this letter on: it is a quote.
fn is_quote(letter: char) -> bool
    ensures { result ≡ spec.is_quote letter }
{
    letter == '"' || letter == '\''
}

/// Whether it is a blank, or the end of a line.
fn is_blank(letter: char) -> bool
    ensures { result ≡ spec.is_blank letter }
{
    letter == ' ' || letter == '\n'
}

/// What is ahead in a text.
#[derive(Clone, Copy)]
pub(crate) enum Ahead {
    /// The first word, after a letter that is none of a name.
    Sign,
    /// The first word, after a letter of a name.
    Name,
    /// The word after it.
    Second,
}

/// Whether it is a letter of a name.
fn is_of_name(letter: char) -> bool
    ensures { result ≡ spec.is_of_name letter }
{
    ('0' <= letter && letter <= '9')
        || ('A' <= letter && letter <= 'Z')
        || letter == '_'
        || ('a' <= letter && letter <= 'z')
}

/// What is ahead after a letter of the first word.
fn in_first(letter: char) -> Ahead
    ensures { result ≡ spec.in_first letter }
{
    if is_of_name(letter) {
        Ahead::Name
    } else {
        Ahead::Sign
    }
}

/// What is ahead after a letter.
fn ahead_after(ahead: Ahead, letter: char) -> Ahead
    ensures { result ≡ spec.ahead_after ahead letter }
{
    match ahead {
        Ahead::Sign => in_first(letter),
        Ahead::Name => {
            if letter == ' ' {
                Ahead::Second
            } else {
                in_first(letter)
            }
        }
        Ahead::Second => Ahead::Second,
    }
}

/// Whether what stays together is over at a letter.
fn is_over(ahead: Ahead, letter: char) -> bool
    ensures { result ≡ spec.is_over ahead letter }
{
    match ahead {
        Ahead::Sign | Ahead::Second => is_blank(letter),
        Ahead::Name => letter == '\n',
    }
}

/// Whether the next word ends before so many letters, and where it ends with a name, the word after
/// it: a type and what has it stay together.
fn fits(room: u32, rest: &str) -> bool
    ensures { result ≡ spec.fits room (chars rest.now) }
{
    let mut left = room;
    let mut ahead = Ahead::Sign;
    for letter in rest.chars() {
        if is_over(ahead, letter) {
            return true;
        }
        if left == 0 {
            return false;
        }
        left -= 1;
        ahead = ahead_after(ahead, letter);
    }
    true
}

/// Whether a line may begin with what follows.
fn may_begin(rest: &str) -> bool
    ensures { result ≡ spec.may_begin (chars rest.now) }
{
    match rest.chars().next() {
        Some(letter) => letter != '#' && letter != '\\',
        None => true,
    }
}

/// Whether the line is broken at this letter, before this rest.
fn is_break(place: Place, letter: char, rest: &str) -> bool
    ensures { result ≡ spec.is_break place letter (chars rest.now) }
{
    match place {
        Place::Margin(_) => false,
        Place::Words(_, room) => {
            letter == ' ' && !fits(room.saturating_sub(1), rest) && may_begin(rest)
        }
        Place::Whole => false,
    }
}

/// How many blanks a line begins with that goes on with one in whose margin so much room is left.
fn margin_for(room: u32) -> u32
    ensures { result ≡ spec.margin_for room }
{
    WIDTH.saturating_sub(room).min(DEEPEST) + STEP
}

/// The place after a letter of a line that isn't broken at it.
fn moved(place: Place, letter: char) -> Place
    ensures { result ≡ spec.moved place letter }
{
    match place {
        Place::Margin(room) => moved_in_margin(room, letter),
        Place::Words(margin, room) => {
            if is_quote(letter) {
                Place::Whole
            } else {
                Place::Words(margin, room.saturating_sub(1))
            }
        }
        Place::Whole => Place::Whole,
    }
}

/// The place after a letter that stands after blanks alone.
fn moved_in_margin(room: u32, letter: char) -> Place
    ensures { result ≡ spec.moved (Place.Margin room) letter }
{
    if letter == ' ' {
        Place::Margin(room.saturating_sub(1))
    } else if letter == '#' || is_quote(letter) {
        Place::Whole
    } else {
        Place::Words(margin_for(room), room.saturating_sub(1))
    }
}

/// The place after a break.
fn after_break(place: Place) -> Place
    ensures { result ≡ spec.after_break place }
{
    match place {
        Place::Margin(room) => Place::Margin(room),
        Place::Words(margin, _) => Place::Words(margin, WIDTH.saturating_sub(margin)),
        Place::Whole => Place::Whole,
    }
}

/// The place after a letter, before this rest.
fn after(place: Place, letter: char, rest: &str) -> Place
    ensures { result ≡ spec.after place letter (chars rest.now) }
{
    if letter == '\n' {
        Place::Margin(WIDTH)
    } else if is_break(place, letter, rest) {
        after_break(place)
    } else {
        moved(place, letter)
    }
}

/// Appends blanks.
fn print_blanks(out: &mut String, count: u32) -> Result<(), AllocError>
    ensures { OnOk result
        (string_bytes out.new ≡ string_bytes out.old ++ encode_utf8_all (repeat count (32 ∷ []))) }
{
    for _ in 0..count {
        out.push_str(" ")?;
    }
    Ok(())
}

/// Appends what stands in place of a blank at which the line is broken.
fn print_break(out: &mut String, place: Place) -> Result<(), AllocError>
    ensures { OnOk result
        (string_bytes out.new ≡ string_bytes out.old ++ encode_utf8_all (spec.break_text place)) }
{
    match place {
        Place::Margin(_) => Ok(()),
        Place::Words(margin, _) => {
            out.push('\n')?;
            print_blanks(out, margin)
        }
        Place::Whole => Ok(()),
    }
}

/// Appends a letter, or a new line where the line is broken at it.
fn print_letter(out: &mut String, place: Place, letter: char, rest: &str) -> Result<(), AllocError>
    ensures { OnOk result (string_bytes out.new ≡ string_bytes out.old
        ++ encode_utf8_all (spec.letter_text place letter (chars rest.now))) }
{
    if is_break(place, letter, rest) {
        print_break(out, place)
    } else {
        out.push(letter)
    }
}

/// Appends a text with its lines broken.
pub(crate) fn print_broken(out: &mut String, text: &str) -> Result<(), AllocError>
    ensures { OnOk result (string_bytes out.new ≡ string_bytes out.old
        ++ encode_utf8_all (spec.broken (chars text.now))) }
{
    let mut place = Place::Margin(WIDTH);
    let mut letters = text.chars();
    while let Some(letter) = letters.next() {
        let rest = letters.as_str();
        if letter == '\\' {
            out.push_str("\\")?;
            out.push_str(rest)?;
            return Ok(());
        }
        print_letter(out, place, letter, rest)?;
        place = after(place, letter, rest);
    }
    Ok(())
}
