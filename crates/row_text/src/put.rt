//! Writing into the room of a text.
ghost use Rattle.std.specs.Prelude.{◌≡◌, ◌+◌, ◌*◌, ◌/◌, ◌%◌, ◌<◌, ◌≤◌, ◌++◌, ◌∷◌, [], length, take, drop, map, decimal, if◌then◌else◌, vec_capacity, OnOk, OnErr};
ghost use Rattle.std.specs.Fmt.{signed_decimal};
ghost use Rattle.row_text.specs.Put.{separator, more_text};

use itoa::write_digits;
use rail_model::OutOfMemory;

// Sees that there is room after the bytes that are used.
#[inline]
pub(crate) fn make_room(text: &mut Vec<u8>, used: usize, room: usize) -> Result<(), OutOfMemory>
    requires { used ≤ length text.old.items }
    ensures ok { OnOk result (used + room ≤ length text.new.items) }
    ensures kept { take used text.new.items ≡ take used text.old.items }
    ensures err { OnErr result (text.new.items ≡ text.old.items) }
{
    if text.len() - used >= room {
        return Ok(());
    }
    grow(text, used, room)
}

// The room grows by blocks of zeros, which are copied many bytes at a time.
#[inline(never)]
fn grow(text: &mut Vec<u8>, used: usize, room: usize) -> Result<(), OutOfMemory>
    requires { used ≤ length text.old.items }
    ensures ok { OnOk result (used + room ≤ length text.new.items) }
    ensures kept { take used text.new.items ≡ take used text.old.items }
    ensures err { OnErr result (text.new.items ≡ text.old.items) }
{
    let Some(least) = used.checked_add(room) else {
        return Err(OutOfMemory);
    };
    take_memory(text, least)?;
    fill(text, least);
    Ok(())
}

// Sees that a text has memory for so many bytes. An eighth more at least where the text must be
// moved: little of the memory is left unused, and growing costs little for each byte.
fn take_memory(text: &mut Vec<u8>, least: usize) -> Result<(), OutOfMemory>
    ensures ok { OnOk result (least ≤ vec_capacity text.new) }
    ensures kept { text.new.items ≡ text.old.items }
{
    if least <= text.capacity() {
        return Ok(());
    }
    let more = (least - text.len()).max(text.len() / 8);
    text.reserve_exact(more.max(LEAST_ROOM))?;
    Ok(())
}

// Adds zeros, a block at a time, until a text has so many bytes at least. Its memory has room for
// them. A block is short, so its zeros are still in the cache when they are written over.
fn fill(text: &mut Vec<u8>, least: usize)
    requires { least ≤ vec_capacity text.old }
    ensures long { least ≤ length text.new.items }
    ensures kept { take (length text.old.items) text.new.items ≡ text.old.items }
{
    while text.len() < least {
        let step = (text.capacity() - text.len()).min(STEP);
        if text.extend_from_slice(&ZEROS[..step]).is_err() {
            unreachable!();
        }
    }
}

// A block of zeros.
static ZEROS: [u8; STEP] = [0; STEP];

const STEP: usize = 1024;

// The least memory that a text takes at a time.
const LEAST_ROOM: usize = 256;

// Writes a number after the bytes that are used, and a comma before it unless it is a row's first
// field. Gives how many bytes are used then.
#[inline]
pub(crate) fn put_signed(text: &mut [u8], used: usize, has_field: bool, number: i64) -> usize
    requires { used + 22 ≤ length text.old }
    ensures written { take result text.new
        ≡ take used text.old ++ (separator has_field ++ signed_decimal number) }
    ensures more { used ≤ result }
    ensures within { result ≤ used + 22 }
{
    let at = put_comma(text, used, has_field);
    if number >= 0 {
        return put_digits(text, at, number.unsigned_abs());
    }
    text[at] = b'-';
    put_digits(text, at + 1, number.unsigned_abs())
}

// Writes a number that is not negative, as `put_signed` does.
#[inline]
pub(crate) fn put_unsigned(text: &mut [u8], used: usize, has_field: bool, number: u64) -> usize
    requires { used + 22 ≤ length text.old }
    ensures written { take result text.new
        ≡ take used text.old ++ (separator has_field ++ decimal number) }
    ensures more { used ≤ result }
    ensures within { result ≤ used + 22 }
{
    let at = put_comma(text, used, has_field);
    put_digits(text, at, number)
}

// Writes the text of a field after the bytes that are used, as `put_signed` writes a number.
#[inline]
pub(crate) fn put_text(text: &mut [u8], used: usize, has_field: bool, bytes: &[u8]) -> usize
    requires { used + length bytes.now + 1 ≤ length text.old }
    ensures written { take result text.new
        ≡ take used text.old ++ (separator has_field ++ bytes.now) }
    ensures more { used ≤ result }
    ensures within { result ≤ used + length bytes.now + 1 }
{
    let at = put_comma(text, used, has_field);
    put_bytes(text, at, bytes)
}

// Writes what ends a row of so many bytes: two quotes for one empty field, and a line feed.
pub(crate) fn put_end(text: &mut [u8], used: usize, is_blank: bool) -> usize
    requires { used + 3 ≤ length text.old }
    ensures written { take result text.new
        ≡ take used text.old ++ ((if is_blank then 34 ∷ 34 ∷ [] else []) ++ 10 ∷ []) }
    ensures more { used ≤ result }
    ensures within { result ≤ used + 3 }
{
    if is_blank {
        return put_bytes(text, used, b"\"\"\n");
    }
    put_bytes(text, used, b"\n")
}

// Writes numbers, each as `put_signed` does.
#[inline]
pub(crate) fn put_numbers(text: &mut [u8], used: usize, has_field: bool, numbers: &[i64]) -> usize
    requires { used + 22 * length numbers.now ≤ length text.old }
    ensures written { take result text.new
        ≡ take used text.old ++ more_text has_field (map signed_decimal numbers.now) }
    ensures more { used ≤ result }
    ensures within { result ≤ used + 22 * length numbers.now }
{
    let mut at = used;
    let mut after_field = has_field;
    for number in numbers {
        at = put_signed(text, at, after_field, *number);
        after_field = true;
    }
    at
}

// Writes a comma after the bytes that are used. It is among the used ones only after a field: no
// branch is needed, since what comes next is written over it.
#[inline]
fn put_comma(text: &mut [u8], used: usize, has_field: bool) -> usize
    requires { used + 1 ≤ length text.old }
    ensures written { take result text.new ≡ take used text.old ++ separator has_field }
    ensures more { used ≤ result }
    ensures within { result ≤ used + 1 }
{
    text[used] = b',';
    used + usize::from(has_field)
}

#[inline]
pub(crate) fn put_bytes(text: &mut [u8], used: usize, bytes: &[u8]) -> usize
    requires { used + length bytes.now ≤ length text.old }
    ensures written { take result text.new ≡ take used text.old ++ bytes.now }
    ensures end { result ≡ used + length bytes.now }
{
    let end = used + bytes.len();
    text[used..end].copy_from_slice(bytes);
    end
}

// Writes a piece of some bytes after the bytes that are used. A short one is written as eight bytes,
// which takes fewer instructions than a copy of so few: those past it are not among the used ones.
#[inline]
pub(crate) fn put_piece(
    text: &mut [u8],
    used: usize,
    bytes: &[u8],
    start: usize,
    len: usize,
) -> usize
    requires within { start + len ≤ length bytes.now }
    requires room { used + len ≤ length text.old }
    ensures written { take result text.new
        ≡ take used text.old ++ take len (drop start bytes.now) }
    ensures end { result ≡ used + len }
{
    if len <= SHORT && bytes.len() - start >= SHORT && text.len() - used >= SHORT {
        put_bytes(text, used, &bytes[start..start + SHORT]);
        return used + len;
    }
    put_bytes(text, used, &bytes[start..start + len])
}

// The most bytes of a short piece.
const SHORT: usize = 8;

#[inline]
fn put_byte(text: &mut [u8], used: usize, byte: u8) -> usize
    requires { used < length text.old }
    ensures written { take result text.new ≡ take used text.old ++ byte ∷ [] }
    ensures end { result ≡ used + 1 }
{
    text[used] = byte;
    used + 1
}

// Writes a number. One of few digits is written two digits at a time from its first on, which takes
// fewer instructions than to count them before.
#[inline]
fn put_digits(text: &mut [u8], used: usize, number: u64) -> usize
    requires { used + 20 ≤ length text.old }
    ensures written { take result text.new ≡ take used text.old ++ decimal number }
    ensures more { used ≤ result }
    ensures within { result ≤ used + 20 }
{
    if number < 100 {
        return put_small(text, used, number);
    }
    if number < 10_000 {
        return put_four(text, used, number);
    }
    if number < 1_000_000 {
        return put_six(text, used, number);
    }
    put_many(text, used, number)
}

// Writes a number of five or six digits.
#[inline]
fn put_six(text: &mut [u8], used: usize, number: u64) -> usize
    requires more { 10_000 ≤ number }
    requires small { number < 1_000_000 }
    requires room { used + 6 ≤ length text.old }
    ensures written { take result text.new ≡ take used text.old ++ decimal number }
    ensures more { used ≤ result }
    ensures within { result ≤ used + 6 }
{
    let at = put_four(text, used, number / 100);
    put_pair(text, at, number % 100)
}

// Writes a number of three or four digits.
#[inline]
fn put_four(text: &mut [u8], used: usize, number: u64) -> usize
    requires more { 100 ≤ number }
    requires small { number < 10_000 }
    requires room { used + 4 ≤ length text.old }
    ensures written { take result text.new ≡ take used text.old ++ decimal number }
    ensures more { used ≤ result }
    ensures within { result ≤ used + 4 }
{
    let at = put_small(text, used, number / 100);
    put_pair(text, at, number % 100)
}

// Writes a number of one or two digits.
#[inline]
fn put_small(text: &mut [u8], used: usize, number: u64) -> usize
    requires small { number < 100 }
    requires room { used + 2 ≤ length text.old }
    ensures written { take result text.new ≡ take used text.old ++ decimal number }
    ensures more { used ≤ result }
    ensures within { result ≤ used + 2 }
{
    if number < 10 {
        return put_byte(text, used, b'0' + number as u8);
    }
    put_pair(text, used, number)
}

// Writes two digits.
#[inline]
fn put_pair(text: &mut [u8], used: usize, pair: u64) -> usize
    requires small { pair < 100 }
    requires room { used + 2 ≤ length text.old }
    ensures written { take result text.new
        ≡ take used text.old ++ (48 + pair / 10) ∷ (48 + pair % 10) ∷ [] }
    ensures end { result ≡ used + 2 }
{
    let from = pair as usize * 2;
    let (tens, ones) = (PAIRS[from], PAIRS[from + 1]);
    let at = put_byte(text, used, tens);
    put_byte(text, at, ones)
}

// The two digits of each number below a hundred.
static PAIRS: [u8; 200] =
    *b"00010203040506070809101112131415161718192021222324252627282930313233343536373839404142434445464748495051525354555657585960616263646566676869707172737475767778798081828384858687888990919293949596979899";

// Writes a number, whose digits are counted first: they are written from the last on.
#[inline]
fn put_many(text: &mut [u8], used: usize, number: u64) -> usize
    requires { used + 20 ≤ length text.old }
    ensures written { take result text.new ≡ take used text.old ++ decimal number }
    ensures more { used ≤ result }
    ensures within { result ≤ used + 20 }
{
    let end = used + digit_count(number);
    let _start = write_digits(number, text, end);
    end
}

// How many digits a number has.
#[inline]
fn digit_count(number: u64) -> usize
    ensures count { result ≡ length (decimal number) }
    ensures most { result ≤ 20 }
{
    number.max(1).ilog10() as usize + 1
}
