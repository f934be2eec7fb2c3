//! Bytes that stand escaped in cases and in what comes of them.
use small_lines::{Text, parts_of};
use std::alloc::Global;

const DIGITS: [u8; 16] = *b"0123456789abcdef";

// The bytes that an escaped text stands for.
pub(crate) fn unescaped(alloc: Global, escaped: &[u8]) -> Text {
    let mut bytes = Text::new(alloc);
    put_unescaped(&mut bytes, escaped);
    bytes
}

// Adds these bytes to others.
fn put_unescaped(bytes: &mut Text, escaped: &[u8]) {
    let (plain, mut rest) = parts_of(escaped, b'\\');
    bytes.put(plain);
    for _ in 0..escaped.len() {
        if rest.is_empty() {
            return;
        }
        let (escape, later) = parts_of(rest, b'\\');
        let (byte, plain) = byte_and_rest(escape);
        bytes.put(&[byte]);
        bytes.put(plain);
        rest = later;
    }
}

// The byte that an escape stands for, and what comes after it.
fn byte_and_rest(escape: &[u8]) -> (u8, &[u8]) {
    match escape {
        [b'n', rest @ ..] => (b'\n', rest),
        [b'r', rest @ ..] => (b'\r', rest),
        [b'x', high, low, rest @ ..] => (value(*high).wrapping_mul(16) | value(*low), rest),
        _ => (b'?', escape),
    }
}

// What a hexadecimal digit stands for.
fn value(digit: u8) -> u8 {
    match digit {
        b'0'..=b'9' => digit - b'0',
        b'a'..=b'f' => digit - b'a' + 10,
        _ => 0,
    }
}

// Adds bytes, of which those that are no sign of ASCII stand escaped.
pub(crate) fn put_escaped(text: &mut Text, bytes: &[u8]) {
    for byte in bytes {
        put_sign(text, *byte);
    }
}

fn put_sign(text: &mut Text, byte: u8) {
    if (0x20..0x7f).contains(&byte) {
        return text.put(&[byte]);
    }
    let high = DIGITS[usize::from(byte / 16)];
    let low = DIGITS[usize::from(byte % 16)];
    text.put(&[b'\\', b'x', high, low]);
}
