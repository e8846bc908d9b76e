//! The options of a subcommand, as rows of tables.
use clap::{Arg, ArgAction, value_parser};
use std::alloc::{AllocError, Global};

/// An option: its long name, the name of its value, its help, how its value is read, if it is required, and the options that it requires or
/// excludes.
pub struct Choice<'a> {
    pub name: &'a str,
    pub value: &'a str,
    pub help: &'a str,
    pub reads: Reads,
    pub needed: Needed<'a>,
    pub needs: &'a [&'a str],
    pub excludes: &'a [&'a str],
}

/// If an option is required: always, never, or without another.
#[derive(Clone, Copy)]
pub enum Needed<'a> {
    Always,
    Never,
    Unless(&'a str),
}

/// How the value of an option is read: as a word, as a number up to 65,535 or to 2^64 - 1, or as a version, 1 or 2; or it has none.
#[derive(Clone, Copy)]
pub enum Reads {
    Word,
    Small,
    Large,
    Version,
    Nothing,
}

impl<'a> Choice<'a> {
    /// The option as `clap` takes it.
    pub fn arg(&self, alloc: Global) -> Result<Arg<'a>, AllocError> {
        let mut arg = Arg::new(alloc, self.name)
            .long(self.name)
            .help(self.help)
            .required(matches!(self.needed, Needed::Always));
        if let Needed::Unless(other) = self.needed {
            arg = arg.required_unless_present(other)?;
        }
        for other in self.needs {
            arg = arg.requires_arg(*other)?;
        }
        for other in self.excludes {
            arg = arg.conflicts_with(*other)?;
        }
        Ok(match self.reads {
            Reads::Word => arg.value_name(self.value),
            Reads::Small => arg.value_name(self.value).value_parser(value_parser!(u16)),
            Reads::Large => arg.value_name(self.value).value_parser(value_parser!(u64)),
            Reads::Version => arg
                .value_name(self.value)
                .value_parser(value_parser!(u16).range(1..=2)),
            Reads::Nothing => arg.action(ArgAction::SetTrue),
        })
    }
}
