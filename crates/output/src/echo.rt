// What a pong echoes, no longer than a pong takes it.
ghost use Rattle.std.specs.Prelude.{[], ◌≡◌, ◌≤◌, ◌↔◌, length, IsSome, IfSome};

use std::marker::Model;
use wire_writer::MAX_ECHO;

// The bytes behind a ping's byte 8.
#[derive(Drop)]
pub struct Echo<'a> {
    bytes: &'a [u8],
}

impl<'a> Model for Echo<'a> {
    ghost use Rattle.std.specs.Prelude.{List, ℕ, ◌≤◌, length};

    ghost Value = { List ℕ };

    ghost view = { λ echo. echo.bytes.now };

    ghost invariant = { λ echo. length echo.bytes.now ≤ 503 };
}

impl<'a> Echo<'a> {
    pub fn new(bytes: &'a [u8]) -> Option<Echo<'a>>
        ensures some { IsSome result ↔ (length bytes.now ≤ 503) }
        ensures whole { IfSome result (λ echo. echo ≡ bytes.now) }
    {
        if bytes.len() <= MAX_ECHO {
            Some(Echo { bytes })
        } else {
            None
        }
    }

    // For an output that is no pong.
    pub fn empty() -> Echo<'a>
        ensures { result ≡ [] }
    {
        Echo { bytes: b"" }
    }

    pub fn bytes(&self) -> &'a [u8]
        ensures whole { result.now ≡ self.now }
        ensures len_bound { length result.now ≤ 503 }
    {
        self.bytes
    }
}
