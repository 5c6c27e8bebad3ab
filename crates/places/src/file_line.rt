//! A place is made of a file and a line, and tells both: a factor keeps them apart, since no file has so many lines.

ghost use Rattle.std.specs.Prelude.{◌≡◌, ◌<◌, ◌^◌};
ghost use Rattle.places.specs.Places.{place, file_of, line_in};

/// The most files that the sources of a design have.
pub const FILES_MAX: u32 = 64;

/// The places that each file has: 2^24.
const LINES: u32 = 16_777_216;

/// The place of a line in a file.
pub fn place(file: u32, line: u32) -> u32
    requires file { file < 64 }
    requires line { line < 2 ^ 24 }
    ensures place { result ≡ place file line }
    ensures small { result < 2 ^ 30 }
{
    file * LINES + line
}

/// The file of a place.
pub fn file_of(place: u32) -> u32
    ensures { result ≡ file_of place }
{
    place / LINES
}

/// The line of a place in its file.
pub fn line_in(place: u32) -> u32
    ensures line { result ≡ line_in place }
    ensures small { result < 2 ^ 24 }
{
    place % LINES
}
