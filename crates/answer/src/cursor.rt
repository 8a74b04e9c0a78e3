// Where the next output goes: its kind and its length among those of all the outputs, its content behind the contents before it.
ghost use Rattle.std.specs.Prelude.{◌≡◌, [], ◌∷◌, ◌+◌, ◌*◌, ◌<◌, ◌≤◌, length};
ghost use Rattle.output.specs.Inner.Outputs.{output_of};
ghost use Rattle.answer.specs.Inner.Laid.{labelled, passed, Room, Laid};

use output::{Echo, Output};

// Output number `index` of `total`, whose content begins at `at`.
#[derive(Clone, Copy)]
pub(crate) struct Cursor {
    pub(crate) total: usize,
    pub(crate) index: usize,
    pub(crate) at: usize,
}

impl Cursor {
    // The two numbers in front: how many outputs, and how many bytes of contents.
    pub(crate) const HEAD: usize = 4;

    // Writes the kind and the length of the next output, and gives the cursor past it.
    #[tactic(auto, unfolding(crate::specs::Inner::Laid::labelled, crate::specs::Inner::Laid::passed))]
    fn label(self, buf: &mut [u8], kind: u8, size: usize) -> Cursor
        requires index_bound { 4 + self.total + 2 * (self.index + 1) ≤ self.at }
        requires size_in_bounds { self.at + size ≤ length buf.old }
        requires size_bound { size < 65536 }
        ensures value { result ≡ passed self size }
        ensures buf_after { buf.new ≡ labelled self kind size buf.old }
    {
        let lengths = Cursor::HEAD + self.total;
        big_endian::write::<u8>(buf, Cursor::HEAD + self.index, kind);
        big_endian::write::<u16>(buf, lengths + 2 * self.index, size as u16);
        Cursor {
            index: self.index + 1,
            at: self.at + size,
            ..self
        }
    }

    // Writes the next output, its content straight into its part.
    pub(crate) fn write_output(self, buf: &mut [u8], o: Output, echo: &Echo<'_>) -> Cursor
        requires { Room self (output_of echo.now o ∷ []) buf.old }
        ensures { Laid self (output_of echo.now o ∷ []) buf.old result buf.new }
    {
        let echo = echo.bytes();
        let size = o.size(echo);
        let next = self.label(buf, o.kind(), size);
        let at = self.at;
        let _ = o.write(&mut buf[at..at + size], echo);
        next
    }
}
