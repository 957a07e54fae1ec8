ghost use Rattle.std.specs.Prelude.{◌≡◌, IfOk, OnOk};
ghost use Rattle.colis_reader.specs.Nesting.{reading, with_word, around, step, nests_of};
ghost use Rattle.std.specs.Prelude.{[], ◌∷◌, ◌++◌, ◌-◌, length, take};
ghost use Rattle.colis_reader.specs.declared.nest.Nest.TheVariants.{Node};

use crate::nest::Nest;
use script_names::{Bytes, List, Memory};
use std::alloc::Global;
use std::mem;

/// The members that a text has outside of parentheses, but for a word at its end.
pub(crate) fn read_nests(alloc: Global, text: &[u8]) -> Result<List<Nest>, Memory>
    ensures { IfOk result (λ nests. nests ≡ nests_of text.now) }
{
    let mut word = Bytes::new(alloc);
    let mut top = List::new(alloc);
    let mut up = Vec::new(alloc);
    for byte in text {
        read_byte(alloc, &mut word, &mut top, &mut up, *byte)?;
    }
    Ok(top)
}

// Reads one byte.
fn read_byte(
    alloc: Global,
    word: &mut Bytes,
    top: &mut List<Nest>,
    up: &mut Vec<List<Nest>>,
    byte: u8,
) -> Result<(), Memory>
    ensures { let old = reading word.old top.old up.old.items in
        OnOk result (reading word.new top.new up.new.items ≡ step old byte) }
{
    if byte == b' ' {
        return end_word(alloc, word, top);
    }
    if byte == b'(' {
        end_word(alloc, word, top)?;
        return open(alloc, top, up);
    }
    if byte == b')' {
        end_word(alloc, word, top)?;
        return close(alloc, top, up);
    }
    word.push(byte)
}

// Ends the word that was begun.
fn end_word(alloc: Global, word: &mut Bytes, top: &mut List<Nest>) -> Result<(), Memory>
    ensures empty { OnOk result (word.new ≡ []) }
    ensures added { OnOk result (top.new ≡ with_word word.old top.old) }
{
    if word.len() == 0 {
        return Ok(());
    }
    let whole = mem::replace(word, Bytes::new(alloc));
    top.add(Nest::Node(whole, List::new(alloc)))
}

// Begins a list.
fn open(alloc: Global, top: &mut List<Nest>, up: &mut Vec<List<Nest>>) -> Result<(), Memory>
    ensures begun { OnOk result (top.new ≡ []) }
    ensures kept { OnOk result (up.new.items ≡ up.old.items ++ top.old ∷ []) }
{
    let around = mem::replace(top, List::new(alloc));
    up.push(around)?;
    Ok(())
}

// Ends a list.
fn close(alloc: Global, top: &mut List<Nest>, up: &mut Vec<List<Nest>>) -> Result<(), Memory>
    ensures ended { OnOk result (top.new ≡ around up.old.items ++ Node [] top.old ∷ []) }
    ensures kept { up.new.items ≡ take (length up.old.items - 1) up.old.items }
{
    let around = match up.pop() {
        Some(members) => members,
        None => List::new(alloc),
    };
    let members = mem::replace(top, around);
    top.add(Nest::Node(Bytes::new(alloc), members))
}
