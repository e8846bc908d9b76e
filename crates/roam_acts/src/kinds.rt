//! The kinds of acts, with the head of each in lines and bytes.
ghost use Rattle.std.specs.Prelude.{◌≡◌, ◌≤◌};
ghost use Rattle.roam_acts.specs.Kinds.{head_of, headed_in, kind_of, kinds, tag_of, tagged_in, width_of};

use crate::acts::Act;
use roam_keys::Key;

/// The kinds of acts: a key's act is that of a character or that of a named key.
#[derive(Clone, Copy)]
pub(crate) enum Kind {
    Char,
    Named,
    SplitRight,
    SplitDown,
    Close,
    Focus,
    Next,
    Grow,
    Size,
    View,
}

// Every kind.
static KINDS: [Kind; 10] = [
    Kind::Char,
    Kind::Named,
    Kind::SplitRight,
    Kind::SplitDown,
    Kind::Close,
    Kind::Focus,
    Kind::Next,
    Kind::Grow,
    Kind::Size,
    Kind::View,
];

impl Kind {
    /// The kind of an act.
    pub fn of(act: Act) -> Self
        ensures kind { result ≡ kind_of act }
    {
        match act {
            Act::Key(Key::Char(_)) => Kind::Char,
            Act::Key(_) => Kind::Named,
            Act::SplitRight => Kind::SplitRight,
            Act::SplitDown => Kind::SplitDown,
            Act::Close => Kind::Close,
            Act::Focus(_) => Kind::Focus,
            Act::Next => Kind::Next,
            Act::Grow(_) => Kind::Grow,
            Act::Size(_, _) => Kind::Size,
            Act::View(_) => Kind::View,
        }
    }

    /// The one table of tags, widths and heads.
    pub fn entry(self) -> (u8, usize, &'static str)
        ensures tag { result.0 ≡ tag_of self }
        ensures width { result.1 ≡ width_of self }
        ensures most { result.1 ≤ 4 }
        ensures head { result.2.now ≡ head_of self }
    {
        match self {
            Kind::Char => (0x01, 4, "char "),
            Kind::Named => (0x02, 1, "key "),
            Kind::SplitRight => (0x10, 0, "split right"),
            Kind::SplitDown => (0x11, 0, "split down"),
            Kind::Close => (0x12, 0, "close"),
            Kind::Focus => (0x13, 1, "focus "),
            Kind::Next => (0x14, 0, "next"),
            Kind::Grow => (0x15, 2, "grow "),
            Kind::Size => (0x16, 4, "size "),
            Kind::View => (0x17, 2, "view "),
        }
    }

    /// The kind that has this tag.
    pub fn tagged(tag: u8) -> Option<Kind>
        ensures kind { result ≡ tagged_in kinds tag }
    {
        tagged_in(&KINDS, tag)
    }

    /// The kind with whose head a line begins.
    pub fn headed(line: &[u8]) -> Option<Kind>
        ensures kind { result ≡ headed_in kinds line.now }
    {
        headed_in(&KINDS, line)
    }
}

fn tagged_in(all: &[Kind], tag: u8) -> Option<Kind>
    ensures kind { result ≡ tagged_in all.now tag }
{
    all.iter().copied().find(|kind| kind.entry().0 == tag)
}

fn headed_in(all: &[Kind], line: &[u8]) -> Option<Kind>
    ensures kind { result ≡ headed_in all.now line.now }
{
    all.iter()
        .copied()
        .find(|kind| line.starts_with(kind.entry().2.as_bytes()))
}
