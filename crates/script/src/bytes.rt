// The bytes of a line by their kind.
ghost use Rattle.std.specs.Prelude.{◌≡◌, ◌≤◌, length};
ghost use Rattle.script.specs.Bytes.{kind, run};

/// What a byte is for in a line.
#[derive(Clone, Copy, PartialEq, Eq)]
pub(crate) enum Kind {
    /// A space, a tab, a carriage return or a line feed, which parts words.
    Blank,
    /// A `#`, which begins a comment.
    Hash,
    /// Any other byte, which is part of a word.
    Letter,
}

impl From<u8> for Kind {
    ghost from_gives = { λ byte k. k ≡ kind byte };

    fn from(byte: u8) -> Kind {
        match byte {
            b' ' | b'\t' | b'\r' | b'\n' => Kind::Blank,
            b'#' => Kind::Hash,
            _ => Kind::Letter,
        }
    }
}

impl Kind {
    /// How many bytes at the front are of this kind.
    pub(crate) fn run(self, bytes: &[u8]) -> usize
        ensures value { result ≡ run self bytes.now }
        ensures bound { result ≤ length bytes.now }
    {
        bytes
            .iter()
            .take_while(|byte| Kind::from(**byte) == self)
            .count()
    }
}
