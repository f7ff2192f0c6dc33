// Words: their kinds, their contents, and how many of them a recording has at most.
ghost use Rattle.std.specs.Prelude.{◌≡◌, ◌^◌, ◌<◌};
ghost use Rattle.recording.specs.Format.{kind, content, word, is_scan, is_more, is_mark, is_end, is_unknown};
ghost use Rattle.recording.specs.Kinds.{kind_of, number};

/// No recording has more words.
pub const LONGEST: usize = 1_000_000;

/// What a word is, by its top four bits.
#[derive(Clone, Copy, PartialEq, Eq, Debug)]
pub enum Kind {
    /// a more word of the record before it
    More = 0,
    /// a scan with its input
    Scan = 1,
    /// a mark with its number
    Mark = 2,
    /// the end with the number of scans
    End = 3,
    /// 4 to 7: needed, and not known here
    Unknown = 4,
    /// 8 to 15: passed over together with its more words
    Idle = 8,
}

impl Kind {
    /// The kind of a word.
    pub fn of(word: u32) -> Kind
        ensures { result ≡ kind_of word }
    {
        match word >> 28 {
            0 => Kind::More,
            1 => Kind::Scan,
            2 => Kind::Mark,
            3 => Kind::End,
            4..=7 => Kind::Unknown,
            _ => Kind::Idle,
        }
    }
}

/// The 28 bits of a word below its kind.
pub fn content_of(word: u32) -> u32
    ensures { result ≡ content word }
{
    word % (1 << 28)
}

/// The word of a kind, of its lowest number where it has several, with the low 28 bits of a value as its content.
pub fn word_of(kind: Kind, value: u32) -> u32
    ensures bits { result ≡ word (number kind) (content value) }
    ensures whole { value < 2 ^ 28 → result ≡ word (number kind) value }
{
    ((kind as u32) << 28) + content_of(value)
}

// The number of a word's kind.
fn top(word: u32) -> u32
    ensures { result ≡ kind word }
{
    word >> 28
}

// Tests of one kind each, by its number: over words of mixed kinds a branch on `Kind::of` takes longer.

/// Whether a word is a scan.
pub fn is_scan(word: u32) -> bool
    ensures { result ≡ is_scan word }
{
    top(word) == Kind::Scan as u32
}

pub(crate) fn is_more(word: u32) -> bool
    ensures { result ≡ is_more word }
{
    top(word) == Kind::More as u32
}

pub(crate) fn is_mark(word: u32) -> bool
    ensures { result ≡ is_mark word }
{
    top(word) == Kind::Mark as u32
}

pub(crate) fn is_end(word: u32) -> bool
    ensures { result ≡ is_end word }
{
    top(word) == Kind::End as u32
}

pub(crate) fn is_unknown(word: u32) -> bool
    ensures { result ≡ is_unknown word }
{
    top(word) >= Kind::Unknown as u32 && top(word) < Kind::Idle as u32
}
