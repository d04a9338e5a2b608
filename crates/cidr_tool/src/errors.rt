//! Why a run of the program gave no answer.
ghost use Rattle.std.specs.Prelude.{◌≡◌, Some};

use arrayvec::ArrayString;
use cidr::AddrParseError;
use cidr::errors::NetworkParseError;
use cidr_io::sink::OutputFailed;
use std::fmt;

/// Why an argument was rejected.
#[derive(Debug, Drop, PartialEq)]
pub enum Fault {
    /// An argument is no network: the error of parsing it.
    Network(NetworkParseError),
    /// An argument is no address: the error of parsing it.
    Address(AddrParseError),
}

impl Fault {
    ghost use Rattle.cidr_tool.specs.Report.{message_of};

    /// The words of what it holds.
    pub fn to_text(&self) -> ArrayString<99>
        ensures { result.bytes ≡ message_of self.now }
    {
        let mut text = ArrayString::new();
        match self {
            Fault::Network(e) => text.push_str(e.to_text().as_str()),
            Fault::Address(e) => text.push_str(e.to_text().as_str()),
        }
        text
    }
}

impl fmt::Display for Fault {
    ghost use Rattle.cidr_tool.specs.Report.{message_of};

    ghost output = { λ fault. Some (message_of fault) };

    fn fmt<W: fmt::Write>(&self, f: &mut fmt::Formatter<W>) -> fmt::Result {
        f.write_str(self.to_text().as_str())
    }
}

/// Why `run` gave no answer.
#[derive(Debug, Drop, PartialEq)]
pub enum ToolError {
    /// An argument was rejected; nothing was written.
    Refused(Fault),
    /// The arguments are no command of the program; nothing was written.
    Usage,
    /// The output has failed; a beginning of the answer was written.
    Output,
}

impl From<NetworkParseError> for ToolError {
    ghost use Rattle.cidr_tool.specs.declared.errors.Fault.TheVariants.{Network};
    ghost use Rattle.cidr_tool.specs.declared.errors.ToolError.TheVariants.{Refused};

    ghost from_gives = { λ e t. t ≡ Refused (Network e) };

    fn from(e: NetworkParseError) -> ToolError {
        ToolError::Refused(Fault::Network(e))
    }
}

impl From<AddrParseError> for ToolError {
    ghost use Rattle.cidr_tool.specs.declared.errors.Fault.TheVariants.{Address};
    ghost use Rattle.cidr_tool.specs.declared.errors.ToolError.TheVariants.{Refused};

    ghost from_gives = { λ e t. t ≡ Refused (Address e) };

    fn from(e: AddrParseError) -> ToolError {
        ToolError::Refused(Fault::Address(e))
    }
}

impl From<OutputFailed> for ToolError {
    ghost use Rattle.cidr_tool.specs.declared.errors.ToolError.TheVariants.{Output};

    ghost from_gives = { λ _ t. t ≡ Output };

    fn from(_error: OutputFailed) -> ToolError {
        ToolError::Output
    }
}
