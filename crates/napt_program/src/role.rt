//! The files of the command line, by their options.

ghost use Rattle.std.specs.Prelude.{◌≡◌};
ghost use Rattle.napt_program.specs.CommandLine.{role_name};

/// A file of the command line, by its option.
#[derive(Clone, Copy, Debug, PartialEq, Eq)]
pub enum FileRole {
    /// The configuration.
    Config,
    /// The state from which the run starts.
    Resume,
    /// The capture of the packets that inside hosts send.
    Inside,
    /// The capture of the packets that come from the outside.
    Outside,
    /// The capture of the packets that go to the outside.
    ToOutside,
    /// The capture of the packets that go to inside hosts.
    ToInside,
    /// The report, which counts the packets by outcome.
    Report,
    /// The state after the run.
    Save,
    /// The log of the bindings, which only some programs have.
    Log,
}

impl FileRole {
    /// Returns the name of the file's option, without its dashes.
    pub fn name(self) -> &'static str
        ensures { result.now ≡ role_name self }
    {
        match self {
            FileRole::Config => "config",
            FileRole::Resume => "resume",
            FileRole::Inside => "inside",
            FileRole::Outside => "outside",
            FileRole::ToOutside => "to-outside",
            FileRole::ToInside => "to-inside",
            FileRole::Report => "report",
            FileRole::Save => "save",
            FileRole::Log => "log",
        }
    }
}
