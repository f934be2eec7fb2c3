//! Times in the fields that are written.
ghost use Rattle.std.specs.Prelude.{◌≡◌, ◌<◌, ◌≤◌, ◌++◌, ◌∷◌, IfOk, OnOk, if◌then◌else◌};
ghost use Rattle.row_text.specs.Lines as lines;

use itoa::Buffer;
use rail_model::OutOfMemory;
use std::alloc::Global;

/// Seconds: the greatest time that is written as a time of day, with five digits of hours.
pub const GREATEST_CLOCK_S: u32 = 359_999_999;

// HOURS:MM:SS
pub(crate) fn clock_text(alloc: Global, seconds: u32) -> Result<Vec<u8>, OutOfMemory>
    ensures { IfOk result (λ text. text.items ≡ lines.clock_text seconds) }
{
    let mut text = Vec::new(alloc);
    let hours = seconds / 3600;
    if hours < 10 {
        text.push(b'0')?;
    }
    text.extend_from_slice(Buffer::new().format(hours).as_bytes())?;
    push_after_colon(&mut text, seconds / 60 % 60)?;
    push_after_colon(&mut text, seconds % 60)?;
    Ok(text)
}

fn push_after_colon(text: &mut Vec<u8>, n: u32) -> Result<(), OutOfMemory>
    requires { n < 100 }
    ensures { OnOk result (text.new.items ≡ text.old.items ++ (58 ∷ lines.two_digits n)) }
{
    let more = [b':', b'0' + (n / 10) as u8, b'0' + (n % 10) as u8];
    text.extend_from_slice(&more)?;
    Ok(())
}
