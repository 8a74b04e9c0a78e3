// Where a line or a word of a text ends.
ghost use Rattle.std.specs.Prelude.{◌≡◌, ◌+◌, ◌==◌, length, drop, position};
ghost use Rattle.text.specs.Lines.{before};

// The first place from `from` on where this byte stands. Where there is none it is the length, or `from` where that is past it.
#[tactic(auto, using(crate::proofs::Words::found_in, crate::proofs::Words::found_past))]
pub fn find(s: &[u8], from: usize, byte: u8) -> usize
    ensures { result ≡ from + length (before byte (drop from s.now)) }
{
    if from >= s.len() {
        return from;
    }
    let rest = &s[from..];
    from + place(rest, byte).unwrap_or(rest.len())
}

fn place(rest: &[u8], byte: u8) -> Option<usize>
    ensures { result ≡ position (λ b. b == byte) rest.now }
{
    rest.iter().position(|b| *b == byte)
}
