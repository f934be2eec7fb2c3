//! Words and numbers of a line.
use rail_model::OutOfMemory;
use small_lines::{Text, parts_of, small_number, word};
use std::alloc::Global;

// The words between blanks; an empty line has none.
pub(crate) fn words_of(alloc: Global, text: &mut Text, line: &[u8]) -> Vec<String> {
    let mut words = Vec::new(alloc);
    if push_words(alloc, &mut words, line).is_err() {
        text.lose();
    }
    words
}

fn push_words(alloc: Global, words: &mut Vec<String>, line: &[u8]) -> Result<(), OutOfMemory> {
    let mut rest = line;
    for _ in 0..line.len() {
        let (word, later) = parts_of(rest, b' ');
        words.push(String::from_utf8_lossy(alloc, word)?)?;
        if word.len() == rest.len() {
            return Ok(());
        }
        rest = later;
    }
    Ok(())
}

// The first two numbers of a line with blanks between them.
pub(crate) fn two_of(line: &[u8]) -> (u32, u32) {
    (small_number(word(line, 0)), small_number(word(line, 1)))
}
