//! Where a job stands in its page, and what ends the page.
ghost use Rattle.finish_definitions.specs.Finished.{ending_bytes, page_after};
ghost use Rattle.std.specs.Prelude.{◌≡◌};

use escp2_definitions::Command;

/// Where a print job stands in its page, after whole commands.
#[derive(Clone, Copy, Debug, PartialEq, Eq)]
pub enum PageState {
    /// No command since the start of the job, or since the last `ESC @`.
    Between,
    /// A page was begun. Its margins are not set.
    Begun,
    /// The margins are set, so a form feed ejects a sheet.
    Open,
    /// A sheet was ejected, and no command has used the next one.
    Ejected,
}

impl PageState {
    /// The state after one more command.
    pub fn after(self, command: Command) -> PageState
        ensures { result ≡ page_after self command }
    {
        match command {
            Command::Init => PageState::Between,
            Command::Eject => PageState::Ejected,
            Command::Margins { .. } => PageState::Open,
            Command::Length { .. } => PageState::Begun,
            Command::DownTo { .. } | Command::DownBy { .. } | Command::Raster { .. } => match self {
                PageState::Between | PageState::Begun => PageState::Begun,
                PageState::Open | PageState::Ejected => PageState::Open,
            },
            _ => match self {
                PageState::Between | PageState::Begun => PageState::Begun,
                PageState::Open => PageState::Open,
                PageState::Ejected => PageState::Ejected,
            },
        }
    }

    /// The bytes that end the page: a form feed and `ESC @`, `ESC @` alone, or nothing.
    pub fn ending(self) -> &'static [u8]
        ensures { result.now ≡ ending_bytes self }
    {
        match self {
            PageState::Between => b"",
            PageState::Begun | PageState::Ejected => b"\x1b@",
            PageState::Open => b"\x0c\x1b@",
        }
    }
}
