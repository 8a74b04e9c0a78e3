// The numbers that stand in a slice, and std's methods by which each goes into bytes and back.
ghost use Rattle.std.specs.Prelude.{◌≡◌, ℕ, pos};
ghost use Rattle.signed.specs.Wrap.{mod64, wrap64};
ghost use Rattle.big_endian.specs.Bytes.{bytes, put, number_at};

use crate::{part, write_bytes};

// A number as it stands in a slice, its highest byte first.
pub trait Number: Copy {
    // How many bytes it has; its bits, as a number from 0 up; and the number that has these bits.
    ghost width: { ℕ };

    ghost bits: { Self → ℕ };

    ghost of_bits: { ℕ → Self };

    fn read_at(s: &[u8], at: usize) -> Self
        ensures { result ≡ of_bits (number_at width at s.now) };

    fn write_at(self, s: &mut [u8], at: usize)
        ensures { s.new ≡ put at (bytes width (bits self)) s.old };
}

impl Number for u8 {
    ghost width = { 1 };

    ghost bits = { λ x. x };

    ghost of_bits = { λ n. n };

    fn read_at(s: &[u8], at: usize) -> u8 {
        u8::from_be_bytes(part(s, at))
    }

    #[tactic(auto, using(crate::proofs::Parts::bytes_1))]
    fn write_at(self, s: &mut [u8], at: usize) {
        write_bytes(s, at, &self.to_be_bytes());
    }
}

impl Number for u16 {
    ghost width = { 2 };

    ghost bits = { λ x. x };

    ghost of_bits = { λ n. n };

    fn read_at(s: &[u8], at: usize) -> u16 {
        u16::from_be_bytes(part(s, at))
    }

    #[tactic(auto, using(crate::proofs::Parts::bytes_2))]
    fn write_at(self, s: &mut [u8], at: usize) {
        write_bytes(s, at, &self.to_be_bytes());
    }
}

impl Number for u32 {
    ghost width = { 4 };

    ghost bits = { λ x. x };

    ghost of_bits = { λ n. n };

    fn read_at(s: &[u8], at: usize) -> u32 {
        u32::from_be_bytes(part(s, at))
    }

    #[tactic(auto, using(crate::proofs::Parts::bytes_4))]
    fn write_at(self, s: &mut [u8], at: usize) {
        write_bytes(s, at, &self.to_be_bytes());
    }
}

impl Number for u64 {
    ghost width = { 8 };

    ghost bits = { λ x. x };

    ghost of_bits = { λ n. n };

    fn read_at(s: &[u8], at: usize) -> u64 {
        u64::from_be_bytes(part(s, at))
    }

    #[tactic(auto, using(crate::proofs::Parts::bytes_8))]
    fn write_at(self, s: &mut [u8], at: usize) {
        write_bytes(s, at, &self.to_be_bytes());
    }
}

impl Number for i64 {
    ghost width = { 8 };

    ghost bits = { mod64 };

    ghost of_bits = { λ n. wrap64 (pos n) };

    fn read_at(s: &[u8], at: usize) -> i64 {
        signed::as_i64(u64::read_at(s, at))
    }

    fn write_at(self, s: &mut [u8], at: usize) {
        signed::as_u64(self).write_at(s, at);
    }
}
