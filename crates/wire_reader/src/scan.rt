// One scan over a packet's entries serves every message: it finds where the last good entry of each key has its value.
ghost use Rattle.std.specs.Prelude.{◌≡◌, ◌≤◌, length, drop};
ghost use Rattle.wire.specs.Parse.{has_entry};
ghost use Rattle.wire_reader.specs.Inner.Scan.{with_entry, Scanned};

use wire::{
    GT, HT, MEP4, MEP4_SIZE, PGT, SESS, SESS_SIZE, STST, STST_SIZE, TIME_SIZE, TMLN, TMLN_SIZE,
};

// Where the values stand.
#[derive(Clone, Copy, Default)]
pub(crate) struct Places {
    pub tmln: Option<usize>,
    pub sess: Option<usize>,
    pub stst: Option<usize>,
    pub mep4: Option<usize>,
    pub ht: Option<usize>,
    pub gt: Option<usize>,
    pub pgt: Option<usize>,
}

impl Places {
    // After an entry of this key and size, whose value stands at `at`. Keys are matched here alone: an enum of them would only be a second match.
    #[tactic(auto, unfolding(crate::specs::Inner::Scan::with_entry))]
    fn with_entry(mut self, key: u32, size: u32, at: usize) -> Places
        ensures { result ≡ with_entry key size at self }
    {
        match (key, size) {
            (TMLN, TMLN_SIZE) => self.tmln = Some(at),
            (SESS, SESS_SIZE) => self.sess = Some(at),
            (STST, STST_SIZE) => self.stst = Some(at),
            (MEP4, MEP4_SIZE) => self.mep4 = Some(at),
            (HT, TIME_SIZE) => self.ht = Some(at),
            (GT, TIME_SIZE) => self.gt = Some(at),
            (PGT, TIME_SIZE) => self.pgt = Some(at),
            _ => {}
        }
        self
    }
}

// Whether 8 bytes are left, and the size is not past the end.
#[tactic(auto, using(crate::proofs::Scanning::has_not, crate::proofs::Scanning::has_by_size))]
fn has_entry_at(bytes: &[u8], at: usize) -> bool
    requires { at ≤ length bytes.now }
    ensures { result ≡ has_entry (drop at bytes.now) }
{
    if bytes.len() < 8 || bytes.len() - 8 < at {
        return false;
    }
    big_endian::read::<u32>(bytes, at + 4) as usize <= bytes.len() - at - 8
}

// Put into each of its three callers, so that the places need not go through memory.
#[inline(always)]
pub(crate) fn scan(bytes: &[u8], from: usize) -> Places
    requires { from ≤ length bytes.now }
    ensures { Scanned bytes.now from result }
{
    let mut found = Places::default();
    let mut at = from;
    // Each entry tells how long it is, so no range of places is known beforehand.
    while has_entry_at(bytes, at) {
        let key = big_endian::read::<u32>(bytes, at);
        let size = big_endian::read::<u32>(bytes, at + 4);
        found = found.with_entry(key, size, at + 8);
        at = at + 8 + size as usize;
    }
    found
}
