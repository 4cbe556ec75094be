//! What the words ask for.
ghost use Rattle.std.specs.Prelude.{◌≡◌};
ghost use Rattle.heap_times.specs.Words.{kind_of};

/// A kind of work.
#[derive(Debug, Drop, Clone, Copy, PartialEq, Eq)]
pub enum Kind {
    /// Cells are added to a world that has some.
    Add,
    /// The cells of a chain of prototypes are read.
    Read,
    /// Keys are looked up in an object that has some.
    Find,
    /// The oldest key of an object is removed, again and again.
    Oldest,
    /// A world ends beside another.
    End,
}

/// So much work of a kind, where so many cells or keys stand.
#[derive(Debug, Drop, Clone, Copy, PartialEq, Eq)]
pub struct Asked {
    pub kind: Kind,
    pub size: u32,
    pub count: u32,
}

// The kind of work that a word names.
fn kind_in(word: &str) -> Option<Kind>
    ensures { result ≡ kind_of word.now }
{
    match word {
        "add" => Some(Kind::Add),
        "read" => Some(Kind::Read),
        "find" => Some(Kind::Find),
        "oldest" => Some(Kind::Oldest),
        "end" => Some(Kind::End),
        _ => None,
    }
}

/// What the words ask for: a kind of work, how many cells or keys stand, and how often it is done.
pub(crate) fn asked_by(words: &[String]) -> Option<Asked> {
    let [kind, size, count] = words else {
        return None;
    };
    Some(Asked {
        kind: kind_in(kind)?,
        size: size.parse::<u32>().ok()?,
        count: count.parse::<u32>().ok()?,
    })
}
