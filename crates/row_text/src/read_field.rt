//! What the fields of a row say.
ghost use Rattle.std.specs.Prelude.{◌≡◌, ◌<◌, ◌^◌, length, IfSome};
ghost use Rattle.row_text.specs.SheetRows.{field};
ghost use Rattle.row_text.specs.Words.{name_in, number_in, rate_in, time_in, number_of, class_rate, rate_of, clock_of, time_of};

use crate::fields::Row;
use crate::word::is_word;
use rail_model::{Form, Name};

/// The greatest number of digits of a number.
pub const NUMBER_DIGITS: usize = 9;

/// The greatest number of digits of the hours of a time of day.
pub const HOUR_DIGITS: usize = 5;

// The name in the field at `i`.
#[inline]
pub(crate) fn name_at(row: &Row<'_>, i: usize) -> Result<Name, Form>
    requires { i < length row.now }
    ensures { result ≡ name_in (field row.now i) }
{
    Name::read(row.get(i)).map_err(|_| Form::BadName)
}

// The number in the field at `i`.
#[inline]
pub(crate) fn number_at(row: &Row<'_>, i: usize) -> Result<u32, Form>
    requires { i < length row.now }
    ensures { result ≡ number_in (field row.now i) }
{
    number(row.get(i)).ok_or(Form::Number)
}

// The rate in the field at `i`: per cent.
pub(crate) fn rate_at(row: &Row<'_>, i: usize) -> Result<u32, Form>
    requires { i < length row.now }
    ensures { result ≡ rate_in (field row.now i) }
{
    rate(row.get(i)).ok_or(Form::Number)
}

// The time in the field at `i`: seconds.
#[inline]
pub(crate) fn time_at(version: u32, row: &Row<'_>, i: usize) -> Result<u32, Form>
    requires { i < length row.now }
    ensures { result ≡ time_in version (field row.now i) }
{
    time(version, row.get(i)).ok_or(Form::Number)
}

/// The number that a field of one to nine digits writes.
#[inline]
pub fn number(field: &[u8]) -> Option<u32>
    ensures value { result ≡ number_of field.now }
    ensures small { IfSome result (λ value. value < 10 ^ length field.now) }
{
    if field.is_empty() || field.len() > NUMBER_DIGITS {
        return None;
    }
    let mut value: u32 = 0;
    for digit in field {
        if !digit.is_ascii_digit() {
            return None;
        }
        value = value * 10 + u32::from(*digit - b'0');
    }
    Some(value)
}

// The per cent that a field says as a number or as the name of a class.
fn rate(field: &[u8]) -> Option<u32>
    ensures { result ≡ rate_of field.now }
{
    number(field).or(class_rate(field))
}

// The per cent of a class.
fn class_rate(field: &[u8]) -> Option<u32>
    ensures { result ≡ class_rate field.now }
{
    if is_word(field, b"suburban-peak") {
        return Some(18);
    }
    if is_word(field, b"suburban-day") {
        return Some(43);
    }
    if is_word(field, b"highspeed-peak") {
        return Some(33);
    }
    if is_word(field, b"highspeed-day") {
        return Some(67);
    }
    if is_word(field, b"mixed-peak") {
        return Some(33);
    }
    if is_word(field, b"mixed-day") {
        return Some(67);
    }
    None
}

// The time that a field says: seconds.
#[inline]
fn time(version: u32, field: &[u8]) -> Option<u32>
    ensures { result ≡ time_of version field.now }
{
    match number(field) {
        Some(seconds) => Some(seconds),
        None if version == 2 => clock(field),
        None => None,
    }
}

// The seconds of a time of day.
fn clock(field: &[u8]) -> Option<u32>
    ensures { result ≡ clock_of field.now }
{
    let len = field.len();
    if len < 7 || len > HOUR_DIGITS + 6 || field[len - 6] != b':' || field[len - 3] != b':' {
        return None;
    }
    let hours = number(&field[..len - 6])?;
    let minutes = number(&field[len - 5..len - 3])?;
    let seconds = number(&field[len - 2..])?;
    if minutes >= 60 || seconds >= 60 {
        return None;
    }
    Some(hours * 3600 + minutes * 60 + seconds)
}
