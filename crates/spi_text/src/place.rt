ghost use Rattle.std.specs.Prelude.{◌≡◌, ◌≤◌, length, drop};
ghost use Rattle.std.specs.List.{count_by, after_last};
ghost use Rattle.spi_text.specs.Place.{place_of, is_line_end, IsSized};

use crate::lines::{Place, starts_in};
use memchr::memrchr;

/// The line and the column of an offset in these bytes, as `Lines` tells them. It looks once at the bytes before the
/// offset and takes no memory, so it is for one place or a few.
pub fn place_at(bytes: &[u8], offset: u32) -> Place
    requires sized { IsSized bytes.now }
    requires within { offset ≤ length bytes.now }
    ensures { result ≡ place_of bytes.now offset }
{
    let before = &bytes[..offset as usize];
    let start = line_start(before);
    Place {
        line: line_ends_in(before) + 1,
        column: starts_in(&before[start..]) + 1,
    }
}

/// Where the last line of the bytes begins.
fn line_start(bytes: &[u8]) -> usize
    ensures bound { result ≤ length bytes.now }
    ensures value { drop result bytes.now ≡ after_last is_line_end bytes.now }
{
    match memrchr(b'\n', bytes) {
        Some(at) => at + 1,
        None => 0,
    }
}

/// How many LF stand in the bytes.
fn line_ends_in(bytes: &[u8]) -> u32
    requires { IsSized bytes.now }
    ensures { result ≡ count_by is_line_end bytes.now }
{
    let mut count = 0;
    for b in bytes {
        count += (*b == b'\n') as u32;
    }
    count
}
