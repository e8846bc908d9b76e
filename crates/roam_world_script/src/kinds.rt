//! The kinds of lines, with the words that they begin with.
ghost use Rattle.std.specs.Prelude.{◌≡◌};
ghost use Rattle.roam_world_script.specs.Kinds.{head_of, headed_in, kinds};

/// The kinds of lines.
#[derive(Clone, Copy)]
pub(crate) enum Kind {
    Session,
    Start,
    Watch,
    PaneBytes,
    Typed,
    ServerTick,
    ClientTick,
    ToServer,
    ToClient,
    Drained,
    Show,
    Face,
    Output,
}

// Every kind.
static KINDS: [Kind; 13] = [
    Kind::Session,
    Kind::Start,
    Kind::Watch,
    Kind::PaneBytes,
    Kind::Typed,
    Kind::ServerTick,
    Kind::ClientTick,
    Kind::ToServer,
    Kind::ToClient,
    Kind::Drained,
    Kind::Show,
    Kind::Face,
    Kind::Output,
];

impl Kind {
    /// How a line of this kind begins.
    pub fn head(self) -> &'static str
        ensures head { result.now ≡ head_of self }
    {
        match self {
            Kind::Session => "session ",
            Kind::Start => "start ",
            Kind::Watch => "watch ",
            Kind::PaneBytes => "pane ",
            Kind::Typed => "type ",
            Kind::ServerTick => "stick ",
            Kind::ClientTick => "ctick ",
            Kind::ToServer => "up ",
            Kind::ToClient => "down ",
            Kind::Drained => "drained ",
            Kind::Show => "show ",
            Kind::Face => "face",
            Kind::Output => "out ",
        }
    }

    /// The kind with whose head a line begins.
    pub fn headed(line: &[u8]) -> Option<Kind>
        ensures kind { result ≡ headed_in kinds line.now }
    {
        headed_in(&KINDS, line)
    }
}

fn headed_in(all: &[Kind], line: &[u8]) -> Option<Kind>
    ensures kind { result ≡ headed_in all.now line.now }
{
    all.iter()
        .copied()
        .find(|kind| line.starts_with(kind.head().as_bytes()))
}
