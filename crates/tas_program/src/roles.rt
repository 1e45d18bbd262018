//! What the inputs of a command are to it, as the lines of its faults name them.
//!
//! A command has one variant of `Roles`, which stands once in its row of `DoesTask` and once in its arm of `run_engine`. Memory that is
//! refused is the fault of no input, so that line names none.

ghost use Rattle.std.specs.Prelude.{◌≡◌};
ghost use Rattle.tas_program.specs.Roles.{role_in, role_of, second_of, unread_fault};

use crate::TaskFault;
use std::fmt;
use std::fmt::{Display, Formatter, Write};
use tas_movie::TextError;
use tas_tool::{ReadFault, ToolFault};

/// What an input is to the command that reads it. Its text is its name in the lines of faults.
#[derive(Clone, Copy, Debug, PartialEq, Eq)]
pub enum Role {
    /// The cartridge.
    Cartridge,
    /// The movie on standard input.
    Movie,
    /// The older movie, of OLD.
    OldMovie,
    /// The other movie, of OTHER.
    OtherMovie,
    /// The script of changes.
    Script,
    /// The names of addresses.
    Names,
}

impl Display for Role {
    fn fmt<W: Write>(&self, f: &mut Formatter<W>) -> fmt::Result {
        match self {
            Role::Cartridge => f.write_str("cartridge"),
            Role::Movie => f.write_str("movie"),
            Role::OldMovie => f.write_str("old movie"),
            Role::OtherMovie => f.write_str("other movie"),
            Role::Script => f.write_str("script"),
            Role::Names => f.write_str("names"),
        }
    }
}

/// The inputs of a command, in the order in which they are read: its files, and last standard input.
#[derive(Clone, Copy, Debug, PartialEq, Eq)]
pub enum Roles {
    /// A cartridge and a movie.
    CartMovie,
    /// A cartridge, an older movie and a movie.
    CartOldMovie,
    /// A cartridge, a script and a movie.
    CartScriptMovie,
    /// A cartridge, a script, another movie and a movie.
    CartScriptOtherMovie,
    /// A cartridge, names of addresses and a movie.
    CartNamesMovie,
}

/// The one of these at a place, counted from 0; past their end it is the movie.
fn role_in(roles: &[Role], place: usize) -> Role
    ensures { result ≡ role_in roles.now place }
{
    roles.get(place).copied().unwrap_or(Role::Movie)
}

/// What the input at a place, counted from 0, is to the command.
pub(crate) fn role_of(roles: Roles, place: usize) -> Role
    ensures { result ≡ role_of roles place }
{
    match roles {
        Roles::CartMovie => role_in(&[Role::Cartridge, Role::Movie], place),
        Roles::CartOldMovie => role_in(&[Role::Cartridge, Role::OldMovie, Role::Movie], place),
        Roles::CartScriptMovie => role_in(&[Role::Cartridge, Role::Script, Role::Movie], place),
        Roles::CartScriptOtherMovie => role_in(
            &[Role::Cartridge, Role::Script, Role::OtherMovie, Role::Movie],
            place,
        ),
        Roles::CartNamesMovie => role_in(&[Role::Cartridge, Role::Names, Role::Movie], place),
    }
}

/// The place of the movie that is read before the one on standard input, where there is one.
pub(crate) fn second_of(roles: Roles) -> Option<usize>
    ensures { result ≡ second_of roles }
{
    match roles {
        Roles::CartMovie => None,
        Roles::CartOldMovie => Some(1),
        Roles::CartScriptMovie => None,
        Roles::CartScriptOtherMovie => Some(2),
        Roles::CartNamesMovie => None,
    }
}

/// The fault of an input that wasn't read whole.
pub(crate) fn unread_fault(role: Role, fault: ReadFault) -> TaskFault
    ensures { result ≡ unread_fault role fault }
{
    match fault {
        ReadFault::TooLong => TaskFault::Unread {
            role,
            fault: ReadFault::TooLong,
        },
        ReadFault::Failed => TaskFault::Unread {
            role,
            fault: ReadFault::Failed,
        },
        ReadFault::Memory => TaskFault::Tool(ToolFault::Read(ReadFault::Memory)),
    }
}

/// The text of `TaskFault::NotMovie`.
pub fn not_movie_line<W: Write>(
    role: &Role,
    error: &TextError,
    f: &mut Formatter<W>,
) -> fmt::Result {
    let line = error.line;
    let kind = error.kind;
    write!(f, "fault: {role} line {line}: {kind}")
}
