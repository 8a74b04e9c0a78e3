// Big-endian numbers, and bytes, at a place of a slice. Every function is total: a read that does not lie within the slice
// gives 0, and a write that does not fit leaves the slice as it was.
// Bytes without a meaning go in here; what they mean is of `wire`, `output` and the file formats.
#![tactic(auto)]

ghost use Rattle.std.specs.Prelude.{◌≡◌};
ghost use Rattle.big_endian.specs.Bytes.{bytes, number, put, number_at};

mod number;

pub use number::Number;

pub fn read<T: Number>(s: &[u8], at: usize) -> T
    ensures { result ≡ T.of_bits (number_at T.width at s.now) }
{
    T::read_at(s, at)
}

pub fn write<T: Number>(s: &mut [u8], at: usize, x: T)
    ensures { s.new ≡ put at (bytes T.width (T.bits x)) s.old }
{
    x.write_at(s, at);
}

#[tactic(auto, using(crate::proofs::Parts::put_middle, crate::specs::Laws::Puts::put_past))]
pub fn write_bytes(s: &mut [u8], at: usize, source: &[u8])
    ensures { s.new ≡ put at source.now s.old }
{
    if source.len() <= s.len() && at <= s.len() - source.len() {
        s[at..at + source.len()].copy_from_slice(source);
    }
}

// The N bytes from place `at` on, or zeros where they do not all lie within the slice.
#[tactic(auto, using(crate::proofs::Parts::number_first, crate::proofs::Parts::number_past))]
fn part<const N: usize>(s: &[u8], at: usize) -> [u8; N]
    ensures { number result ≡ number_at N at s.now }
{
    if N <= s.len() && at <= s.len() - N {
        if let Some(bytes) = s[at..at + N].first_chunk::<N>() {
            return *bytes;
        }
    }
    [0; N]
}
