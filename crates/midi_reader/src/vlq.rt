// A variable-length quantity, read.
ghost use Rattle.std.specs.Prelude.{◌≡◌, get_or};
ghost use Rattle.midi_reader.specs.Steps.{quantity_found};

// A quantity, and of how many bytes it is.
#[derive(Clone, Copy)]
pub(crate) struct Quantity {
    pub value: u32,
    pub size: usize,
}

// The byte at a place; past the end 255, which ends no quantity.
fn byte_at(s: &[u8], at: usize) -> u8
    ensures { result ≡ get_or s.now at 255 }
{
    s.get(at).copied().unwrap_or(255)
}

// The quantity in front, where there is one of at most four bytes whose first is no digit 0 before others.
pub(crate) fn read(s: &[u8]) -> Option<Quantity>
    ensures { result ≡ quantity_found s.now }
{
    let a = byte_at(s, 0);
    if a < 0x80 {
        return Some(Quantity {
            value: a as u32,
            size: 1,
        });
    }
    let is_leading_zero = a == 0x80;
    if is_leading_zero {
        return None;
    }
    let b = byte_at(s, 1);
    let two = (a - 0x80) as u32 * 0x80;
    if b < 0x80 {
        return Some(Quantity {
            value: two + b as u32,
            size: 2,
        });
    }
    let c = byte_at(s, 2);
    let three = (two + (b - 0x80) as u32) * 0x80;
    if c < 0x80 {
        return Some(Quantity {
            value: three + c as u32,
            size: 3,
        });
    }
    let d = byte_at(s, 3);
    let four = (three + (c - 0x80) as u32) * 0x80;
    if d < 0x80 {
        return Some(Quantity {
            value: four + d as u32,
            size: 4,
        });
    }
    None
}
