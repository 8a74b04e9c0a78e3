// A variable-length quantity: how many bytes it takes, and written.
ghost use Rattle.std.specs.Prelude.{◌≡◌, ◌+◌, ◌<◌, ◌≤◌, length};
ghost use Rattle.big_endian.specs.Bytes.{put};
ghost use Rattle.midi_file.specs.Layout.{vlq};

// How many bytes `write` writes for this number.
pub(crate) fn width(n: u32) -> usize
    ensures { result ≡ length (vlq n) }
{
    if n < 0x80 {
        1
    } else if n < 0x4000 {
        2
    } else if n < 0x20_0000 {
        3
    } else {
        4
    }
}

// Writes a quantity of up to four digits to the base 128; gives the place after it.
pub(crate) fn write(part: &mut [u8], at: usize, n: u32) -> usize
    requires n_bound { n < 268435456 }
    requires n_in_bounds { at + length (vlq n) ≤ length part.old }
    ensures { (part.new ≡ put at (vlq n) part.old) × (result ≡ at + length (vlq n)) }
{
    if n < 0x80 {
        big_endian::write::<u8>(part, at, n as u8);
        return at + 1;
    }
    let d = n % 0x80;
    if n < 0x4000 {
        let c = n / 0x80;
        big_endian::write::<u16>(part, at, (0x8000 + c * 0x100 + d) as u16);
        return at + 2;
    }
    let c = n / 0x80 % 0x80;
    if n < 0x20_0000 {
        let b = n / 0x4000;
        big_endian::write::<u8>(part, at, (0x80 + b) as u8);
        big_endian::write::<u16>(part, at + 1, (0x8000 + c * 0x100 + d) as u16);
        return at + 3;
    }
    let b = n / 0x4000 % 0x80;
    let a = n / 0x20_0000;
    big_endian::write::<u32>(
        part,
        at,
        0x8080_8000 + a * 0x100_0000 + b * 0x1_0000 + c * 0x100 + d,
    );
    at + 4
}
