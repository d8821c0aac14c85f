// A capture's size, its contents, and where a body of them may stand.
ghost use Rattle.std.specs.Prelude.{◌≡◌, ◌+◌, ◌≤◌, length};
ghost use Rattle.capture_check.specs.Contents.{body_count, contents_end, contents, words_in, sized as sized_of, lies as lies_of};
ghost use Rattle.capture_check.specs.Kinds.{kind_of, takes};
ghost use Rattle.capture_check.specs.Steps.{bodies, named, named_by};

// What a body holds: register writes, fragments, or the tables to restore.
#[derive(Clone, Copy)]
pub enum BodyKind {
    Writes,
    Fragments,
    Restore,
}

impl BodyKind {
    // The kind of this number, if it is one.
    #[tactic(auto, unfolding(crate::specs::Kinds::kind_of))]
    pub fn from_number(number: u32) -> Option<BodyKind>
        ensures { result ≡ kind_of number }
    {
        match number {
            1 => Some(BodyKind::Writes),
            2 => Some(BodyKind::Fragments),
            3 => Some(BodyKind::Restore),
            _ => None,
        }
    }

    // Whether a body of so many words can be of this kind.
    #[tactic(auto, unfolding(crate::specs::Kinds::takes))]
    fn takes(self, size: usize) -> bool
        ensures { result ≡ takes self size }
    {
        match self {
            BodyKind::Writes => size % 2 == 0,
            BodyKind::Fragments => size % 23 == 0,
            BodyKind::Restore => size == 12288,
        }
    }
}

// What the contents say of a body: the number of its kind, where it stands, and how many words it has.
#[derive(Clone, Copy)]
pub struct Entry {
    pub kind: u32,
    pub offset: u32,
    pub size: u32,
}

impl From<[u32; 3]> for Entry {
    fn from(triple: [u32; 3]) -> Entry
        ensures { named result ≡ named_by triple }
    {
        let [kind, offset, size] = triple;
        Entry { kind, offset, size }
    }
}

impl Entry {
    // Whether the body may stand at `at`, of `end` words.
    pub(crate) fn lies(self, at: usize, end: usize) -> bool
        requires { at ≤ end }
        ensures { result ≡ lies_of (named self) at end }
    {
        let size = self.size as usize;
        if self.offset as usize != at {
            return false;
        }
        if end - at < size {
            return false;
        }
        BodyKind::from_number(self.kind).is_some_and(|kind| kind.takes(size))
    }
}

// Whether an input of n bytes can be a capture.
#[tactic(auto, unfolding(crate::specs::Contents::sized))]
pub fn sized(n: usize) -> bool
    ensures { result ≡ sized_of n }
{
    (1..=65536).contains(&n) && n % 4 == 0
}

// The contents: a triple of kind, offset and size for each body.
// Asks: they lie within the words, as those of a capture whose form is right.
pub fn triples(words: &[u32]) -> &[[u32; 3]]
    requires { contents_end (body_count words.now) ≤ length words.now }
    ensures { bodies result.now ≡ contents words.now }
{
    let end = 1 + 3 * words[0] as usize;
    words[1..end].as_chunks::<3>().0
}

// The words of a body.
// Asks: it ends within the words, as each body of a capture whose form is right.
pub fn body_words(words: &[u32], entry: Entry) -> &[u32]
    requires { entry.offset + entry.size ≤ length words.now }
    ensures { result.now ≡ words_in words.now (named entry) }
{
    let from = entry.offset as usize;
    &words[from..from + entry.size as usize]
}
