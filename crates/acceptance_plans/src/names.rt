//! Names and lists.
use crate::escapes::unescaped;
use rail_model::{List, Name, OutOfMemory};
use small_lines::{Text, after_pieces, word};
use std::alloc::Global;
use std::collections::HashSet;

// What the calls of a list give, one after the other.
pub(crate) fn write_list(alloc: Global, text: &mut Text) {
    let mut list = List::new(alloc);
    text.show(b"is_empty ", list.is_empty());
    if fill(&mut list).is_err() {
        text.lose();
    }
    text.show_all(b"\npush 1, push 3, insert 2 at 1: ", &list.slice());
    write_emptied(text, &mut list);
    match list.copy(alloc) {
        Ok(copy) => write_copied(text, copy.into_vec()),
        Err(_) => text.lose(),
    }
}

fn fill(list: &mut List<u8>) -> Result<(), OutOfMemory> {
    list.push(1)?;
    list.push(3)?;
    if list.len() > 1 {
        list.insert(1, 2)?;
    }
    Ok(())
}

// Of a list of three items that loses two.
fn write_emptied(text: &mut Text, list: &mut List<u8>) {
    if list.len() != 3 {
        return text.put_line(b"not three items");
    }
    *list.get_mut(0) = 9;
    text.show_all(b"\nset 9 at 0, get 0: ", &list.get(0).copied());
    text.show(b"\nremove 1: ", list.remove(1));
    text.show_all(b"\npop: ", &list.pop());
}

fn write_copied(text: &mut Text, items: Vec<u8>) {
    text.show_all(b"\ncopy: ", &items);
    text.show(b"\nfrom_vec, len: ", List::from_vec(items).len());
    text.put(b"\n");
}

// Whether bytes are a name, and whether it gives them again.
pub(crate) fn write_name(alloc: Global, text: &mut Text, line: &[u8]) {
    let bytes = unescaped(alloc, after_pieces(line, b' ', 1));
    match Name::read(bytes.bytes()) {
        Ok(name) if name.bytes() == bytes.bytes() => text.put_line(b"a name"),
        Ok(_) => text.put_line(b"another name"),
        Err(_) => text.put_line(b"no name"),
    }
}

// Two names: their bytes, their order, whether they are the same, and whether a set of the first
// has each.
pub(crate) fn write_names(alloc: Global, text: &mut Text, line: &[u8]) {
    match (Name::read(word(line, 1)), Name::read(word(line, 2))) {
        (Ok(one), Ok(other)) => write_two(alloc, text, &one, &other),
        _ => text.put_line(b"not two names"),
    }
}

fn write_two(alloc: Global, text: &mut Text, one: &Name, other: &Name) {
    text.put(one.bytes());
    text.put(b" and ");
    text.put(other.bytes());
    text.show_all(b": ", &one.cmp(other));
    text.show(b", same ", *one == *other);
    match found(alloc, one, other) {
        Ok((has_one, has_other)) => {
            text.show(b"\nin a set of the first ", has_one);
            text.show(b", ", has_other);
        }
        Err(_) => text.lose(),
    }
    text.put(b"\n");
}

// Whether a set of one name has that, and another.
fn found(alloc: Global, one: &Name, other: &Name) -> Result<(bool, bool), OutOfMemory> {
    let mut set = HashSet::new(alloc);
    set.insert(*one)?;
    Ok((set.contains(one), set.contains(other)))
}
