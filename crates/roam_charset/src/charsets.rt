//! The graphic character sets, as tables.
ghost use Rattle.std.specs.Prelude.{◌≡◌};
ghost use Rattle.roam_charset.specs.Charsets.{mapped_by, special_graphic};

/// A set of 94 graphic characters.
#[derive(Clone, Copy, PartialEq, Eq)]
pub enum Charset {
    /// ASCII, ECMA-6's International Reference Version.
    Ascii,

    /// The United Kingdom set of the VT220: a pound sign at 2/3.
    UnitedKingdom,

    /// DEC Special Graphics, the line drawing set of the VT220.
    DecSpecialGraphics,
}

// The characters of DEC Special Graphics at 5/15 to 7/14 (VT220 Programmer Reference, chapter 2).
static SPECIAL_GRAPHICS: [char; 32] = [
    '\u{0020}', '\u{25C6}', '\u{2592}', '\u{2409}', '\u{240C}', '\u{240D}', '\u{240A}', '\u{00B0}',
    '\u{00B1}', '\u{2424}', '\u{240B}', '\u{2518}', '\u{2510}', '\u{250C}', '\u{2514}', '\u{253C}',
    '\u{23BA}', '\u{23BB}', '\u{2500}', '\u{23BC}', '\u{23BD}', '\u{251C}', '\u{2524}', '\u{2534}',
    '\u{252C}', '\u{2502}', '\u{2264}', '\u{2265}', '\u{03C0}', '\u{2260}', '\u{00A3}', '\u{00B7}',
];

fn special_graphic(c: char) -> char
    ensures graphic { result ≡ special_graphic c }
{
    match c {
        '\u{5F}'..='\u{7E}' => SPECIAL_GRAPHICS[c as usize - 0x5F],
        _ => c,
    }
}

impl Charset {
    /// Returns the character of this set at the code of an ASCII character; every other character is itself (VT220 Programmer Reference,
    /// chapter 2).
    #[tactic(auto, unfolding(crate::specs::Charsets::mapped_by))]
    pub fn map(self, c: char) -> char
        ensures mapped { result ≡ mapped_by self c }
    {
        match c {
            '\u{21}'..='\u{7E}' => match self {
                Charset::Ascii => c,
                Charset::UnitedKingdom => { if c == '#' { '\u{A3}' } else { c } }
                Charset::DecSpecialGraphics => special_graphic(c),
            },
            _ => c,
        }
    }
}
