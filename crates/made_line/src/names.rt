//! The names of the made line.
ghost use Rattle.std.specs.Prelude.{◌≡◌, ◌<◌, IsTrue};
ghost use Rattle.rail_model.specs.Name.{is_name};
ghost use Rattle.made_line.specs.Base as names;

use rail_model::Name;

// b00 to b63
pub(crate) fn block_name(i: u32) -> Name
    requires { i < 64 }
    ensures { result ≡ names.block_name i }
{
    name(&[b'b', digit(i / 10), digit(i % 10)])
}

// s00 to s63
pub(crate) fn signal_name(i: u32) -> Name
    requires { i < 64 }
    ensures { result ≡ names.signal_name i }
{
    name(&[b's', digit(i / 10), digit(i % 10)])
}

pub(crate) fn route_name() -> Name
    ensures { result ≡ names.route_name }
{
    name(b"line")
}

// r000 to r299
pub(crate) fn run_name(i: u32) -> Name
    requires { i < 300 }
    ensures { result ≡ names.run_name i }
{
    name(&[b'r', digit(i / 100), digit(i / 10 % 10), digit(i % 10)])
}

// q0 to q7
pub(crate) fn section_name(j: u32) -> Name
    requires { j < 8 }
    ensures { result ≡ names.section_name j }
{
    name(&[b'q', digit(j)])
}

// The name of bytes that are one.
fn name(bytes: &[u8]) -> Name
    requires { IsTrue (is_name bytes.now) }
    ensures { result ≡ bytes.now }
{
    match Name::read(bytes) {
        Ok(name) => name,
        Err(_) => unreachable!(),
    }
}

fn digit(n: u32) -> u8
    requires { n < 10 }
    ensures is { result ≡ names.digit n }
    ensures printed { IsTrue (names.is_printed result) }
{
    b'0' + n as u8
}
