ghost use Rattle.std.specs.Prelude.{◌≡◌, ◌≤◌, ◌<◌, ◌++◌, take, drop, replicate, IfOk, OnOk};
ghost use Rattle.std.specs.List.{flat_map};
ghost use Rattle.bstr.specs.Utf8.{decoded};
ghost use Rattle.script_names.specs.Ascii.{space};
ghost use Rattle.shown_texts.specs.Show.{hex_digit};
ghost use Rattle.script_places.specs.SourceLines.{cell_text, cut_line, first_count, first_look, first_within, fits};
ghost use Rattle.script_places.specs.SourceLines.{fitted_line, is_joined, is_shown, is_within, last_within, left_out_before, left_out_behind, line_cells, look_at};
ghost use Rattle.script_places.specs.SourceLines.{look_width, looked, rest_look, shown_line, shows, source_line, width};

use crate::command_ends::command_length;
use crate::positions::{behind, behind_newline, front, line_at, passed_behind};
use bstr::decode_utf8;
use script_names::{Bytes, Copied, List, Memory};
use std::alloc::Global;

// How a byte of a line looks on a terminal.
#[derive(Clone, Copy, Debug, PartialEq, Eq)]
pub enum Look {
    // As itself, the first byte of a character or the only one.
    Itself,
    // As a further byte of the character before.
    Joined,
    // As so many blanks: a tab.
    Blanks(u8),
    // As `\x` and two lower hexadecimal digits.
    Spelled,
}

impl Copied for Look {
    fn copy(&self, _alloc: Global) -> Result<Look, Memory> {
        Ok(*self)
    }
}

// A byte of a line, and how it looks.
#[derive(Clone, Copy, Debug, PartialEq, Eq)]
pub struct Cell {
    pub byte: u8,
    pub look: Look,
}

impl Copied for Cell {
    fn copy(&self, _alloc: Global) -> Result<Cell, Memory> {
        Ok(*self)
    }
}

/// A line of a script as a terminal shows it, without a newline. `before` columns stand before the command, and
/// `marked` columns are the command's, as far as it stands in the line: at least one.
#[derive(Debug, Drop)]
pub struct SourceLine {
    pub text: Bytes,
    pub before: usize,
    pub marked: usize,
}

/// The line of the byte `at` of a script, and where the command stands in it that begins there. Tabs go to columns that
/// are multiples of 4; controls, bytes that are no UTF-8, and characters that turn the direction of writing, break a
/// line or have no width are `\x` and two hexadecimal digits for each byte; every other character has one column. Of a
/// line of more than 100 columns 40 are shown before the place at most, and 60 from it on, with `[..]` where more is.
pub fn source_line(alloc: Global, script: &[u8], at: usize) -> Result<SourceLine, Memory>
    ensures { IfOk result (λ line. line ≡ source_line script.now at) }
{
    let cells = line_cells(alloc, line_at(script, at))?;
    let marked = command_length(alloc, behind(script, at))?;
    fitted_line(
        alloc,
        behind_newline(front(script, at)),
        cells.as_slice(),
        marked,
    )
}

// A line of cells with a place behind the first of them.
#[tactic(auto, using(crate::proofs::Widths::front_fits, crate::proofs::Widths::rest_fits))]
fn fitted_line(
    alloc: Global,
    place: usize,
    all: &[Cell],
    marked: usize,
) -> Result<SourceLine, Memory>
    ensures { IfOk result (λ line. line ≡ fitted_line place all.now marked) }
{
    let before = front_cells(all, place);
    let after = cells_behind(all, place);
    if fits(100, all) {
        return shown_line(alloc, before, after, false, false, marked);
    }
    cut_line(alloc, before, after, marked)
}

// As much as has room of cells before a place and from it on.
fn cut_line(
    alloc: Global,
    before: &[Cell],
    after: &[Cell],
    marked: usize,
) -> Result<SourceLine, Memory>
    ensures { IfOk result (λ line. line ≡ cut_line before.now after.now marked) }
{
    let left = last_within(40, before);
    let right = first_within(60, after);
    let cut_before = left.len() < before.len();
    let cut_after = right.len() < after.len();
    shown_line(alloc, left, right, cut_before, cut_after, marked)
}

// The line with the printed cells.
#[tactic(auto, using(crate::proofs::Widths::front_within))]
fn shown_line(
    alloc: Global,
    before: &[Cell],
    after: &[Cell],
    cut_before: bool,
    cut_after: bool,
    marked: usize,
) -> Result<SourceLine, Memory>
    requires before { width before.now ≤ 100 }
    requires after { width after.now ≤ 100 }
    ensures { IfOk result (λ line. line ≡ shown_line before.now after.now cut_before cut_after marked) }
{
    let mut text = Bytes::from_slice(alloc, left_out_before(cut_before))?;
    push_cells(&mut text, before)?;
    push_cells(&mut text, after)?;
    text.extend(left_out_behind(cut_after))?;
    let columns = left_out_before(cut_before).len() + width(before);
    let marked = width(front_cells(after, marked)).max(1);
    Ok(SourceLine {
        text,
        before: columns,
        marked,
    })
}

// The first cells, as far as there are some.
fn front_cells(cells: &[Cell], count: usize) -> &[Cell]
    ensures { result.now ≡ take count cells.now }
{
    if count < cells.len() {
        &cells[..count]
    } else {
        cells
    }
}

// The cells behind the first ones.
fn cells_behind(cells: &[Cell], count: usize) -> &[Cell]
    ensures { result.now ≡ drop count cells.now }
{
    if count < cells.len() {
        &cells[count..]
    } else {
        &[]
    }
}

// What stands for cells that are left out before the printed ones.
fn left_out_before(cut: bool) -> &'static [u8]
    ensures { result.now ≡ left_out_before cut }
{
    if cut { b"[..] " } else { b"" }
}

// What stands for those that are left out behind them.
fn left_out_behind(cut: bool) -> &'static [u8]
    ensures { result.now ≡ left_out_behind cut }
{
    if cut { b" [..]" } else { b"" }
}

// The cells of a line.
fn line_cells(alloc: Global, line: &[u8]) -> Result<List<Cell>, Memory>
    ensures { IfOk result (λ cells. cells ≡ line_cells line.now) }
{
    let mut cells = List::new(alloc);
    let mut column = 0usize;
    let mut passed = 0usize;
    let mut rest_looks = Look::Spelled;
    let mut left = line;
    while let [byte, rest @ ..] = left {
        let look = look_at(column, passed, rest_looks, left);
        cells.add(Cell { byte: *byte, look })?;
        column = (column + look_width(look)) % 4;
        passed = passed_behind(passed, left);
        rest_looks = rest_look(look);
        left = rest;
    }
    Ok(cells)
}

// How the first byte looks, of which so many first bytes are the rest of an earlier character and look so.
fn look_at(column: usize, passed: usize, rest: Look, text: &[u8]) -> Look
    ensures { result ≡ look_at column passed rest text.now }
{
    if passed == 0 {
        first_look(column, text)
    } else {
        rest
    }
}

// How the first byte of a character looks.
fn first_look(column: usize, text: &[u8]) -> Look
    ensures { result ≡ first_look column text.now }
{
    match text {
        [] => Look::Spelled,
        [byte, ..] => {
            if *byte == b'\t' {
                return Look::Blanks((4 - column % 4) as u8);
            }
            if shows(text) {
                Look::Itself
            } else {
                Look::Spelled
            }
        }
    }
}

/// Whether the first character of a text is shown as it is: it is no control, turns no direction of writing, breaks no
/// line and has a width.
pub fn shows(text: &[u8]) -> bool
    ensures { result ≡ shows (decoded text.now).char }
{
    let (character, _) = decode_utf8(text);
    match character {
        None => false,
        Some(character) => is_shown(character as u32),
    }
}

// A number from one to another.
fn is_within(first: u32, last: u32, number: u32) -> bool
    ensures { result ≡ is_within first last number }
{
    first <= number && number <= last
}

// A character that is no control, turns no direction of writing, breaks no line and has a width.
fn is_shown(character: u32) -> bool
    ensures { result ≡ is_shown character }
{
    let control = is_within(0, 31, character) || is_within(127, 159, character);
    let mark = character == 0x61c || is_within(0x200b, 0x200f, character);
    let layout = is_within(0x2028, 0x202e, character) || is_within(0x2060, 0x206f, character);
    !control && !mark && !layout && character != 0xfeff
}

// How the further bytes of a character look.
fn rest_look(look: Look) -> Look
    ensures { result ≡ rest_look look }
{
    match look {
        Look::Itself => Look::Joined,
        Look::Joined => Look::Joined,
        Look::Blanks(_) => Look::Spelled,
        Look::Spelled => Look::Spelled,
    }
}

// How many columns a byte has that looks so.
fn look_width(look: Look) -> usize
    ensures value { result ≡ look_width look }
    ensures most { result ≤ 255 }
{
    match look {
        Look::Itself => 1,
        Look::Joined => 0,
        Look::Blanks(columns) => columns as usize,
        Look::Spelled => 4,
    }
}

// How many columns cells have.
fn width(cells: &[Cell]) -> usize
    requires { width cells.now ≤ 100 }
    ensures value { result ≡ width cells.now }
{
    let mut columns = 0usize;
    let mut left = cells;
    while let [cell, rest @ ..] = left {
        columns += look_width(cell.look);
        left = rest;
    }
    columns
}

// Whether cells have room in so many columns.
fn fits(room: usize, cells: &[Cell]) -> bool
    ensures { result ≡ fits room cells.now }
{
    let mut columns = room;
    let mut left = cells;
    while let [cell, rest @ ..] = left {
        let wide = look_width(cell.look);
        if wide > columns {
            return false;
        }
        columns -= wide;
        left = rest;
    }
    true
}

// How many first cells have room in so many columns.
fn first_count(room: usize, cells: &[Cell]) -> usize
    ensures { result ≡ first_count room cells.now }
{
    let mut columns = room;
    let mut count = 0usize;
    let mut left = cells;
    while let [cell, rest @ ..] = left {
        let wide = look_width(cell.look);
        if wide > columns {
            return count;
        }
        columns -= wide;
        count += 1;
        left = rest;
    }
    count
}

// The first cells that have room in so many columns.
#[tactic(auto, using(crate::proofs::Widths::first_fits))]
fn first_within(room: usize, cells: &[Cell]) -> &[Cell]
    ensures value { result.now ≡ first_within room cells.now }
    ensures most { width result.now ≤ room }
{
    front_cells(cells, first_count(room, cells))
}

// Whether a cell goes on with a character.
fn is_joined(look: Look) -> bool
    ensures { result ≡ is_joined look }
{
    match look {
        Look::Joined => true,
        Look::Itself | Look::Blanks(_) | Look::Spelled => false,
    }
}

// The last cells that have room in so many columns, from the begin of a character on.
fn last_within(room: usize, cells: &[Cell]) -> &[Cell]
    ensures value { result.now ≡ last_within room cells.now }
    ensures most { width result.now ≤ room }
{
    let mut left = cells;
    while let [cell, rest @ ..] = left {
        if fits(room, left) && !is_joined(cell.look) {
            return left;
        }
        left = rest;
    }
    left
}

// Adds what is printed for each cell.
fn push_cells(text: &mut Bytes, cells: &[Cell]) -> Result<(), Memory>
    ensures { OnOk result (text.new ≡ text.old ++ flat_map cell_text cells.now) }
{
    for cell in cells {
        push_cell(text, *cell)?;
    }
    Ok(())
}

// Adds what is printed for a cell.
fn push_cell(text: &mut Bytes, cell: Cell) -> Result<(), Memory>
    ensures { OnOk result (text.new ≡ text.old ++ cell_text cell) }
{
    push_looked(text, cell.byte, cell.look)
}

// Adds what is printed for a byte.
fn push_looked(text: &mut Bytes, byte: u8, look: Look) -> Result<(), Memory>
    ensures { OnOk result (text.new ≡ text.old ++ looked byte look) }
{
    match look {
        Look::Itself => text.push(byte),
        Look::Joined => text.push(byte),
        Look::Blanks(columns) => push_blanks(text, columns),
        Look::Spelled => text.extend(&[b'\\', b'x', hex_digit(byte / 16), hex_digit(byte % 16)]),
    }
}

// Adds blanks.
fn push_blanks(text: &mut Bytes, count: u8) -> Result<(), Memory>
    ensures { OnOk result (text.new ≡ text.old ++ replicate count space) }
{
    let mut done = 0u8;
    while done < count {
        text.push(b' ')?;
        done += 1;
    }
    Ok(())
}

// The lower hexadecimal digit of a number below 16.
fn hex_digit(digit: u8) -> u8
    requires { digit < 16 }
    ensures { result ≡ hex_digit digit }
{
    if digit < 10 {
        b'0' + digit
    } else {
        b'a' + (digit - 10)
    }
}
