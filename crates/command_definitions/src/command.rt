//! The commands that settings name.
use ck_base::attributes::Attrs;
use ck_base::name::Name;
use ck_base::value::Value;

/// What a command does. (After `AttributeCommand`, `HeadingCommand`, `EnterCommand`, `DeleteCommand`, `InsertTextCommand` and `BlockQuoteCommand` of
/// CKEditor 5, and `Model.insertObject`.)
#[derive(Debug, Drop)]
pub enum Command {
    /// The selected text gets this value of a key, or loses the key where it has it.
    Toggle { key: Name, value: Value },
    /// The selected blocks get another name, and these attributes.
    Block { name: Name, attributes: Attrs },
    /// The block is split.
    Enter,
    /// The selected content goes, or what stands before the caret.
    DeleteBackward,
    /// The selected content goes, or what stands behind the caret.
    DeleteForward,
    /// A text takes the place of the selected content.
    TypeText,
    /// An element without children, an object in most cases, takes the place of the selected content.
    Object { name: Name },
    /// The selected blocks go into a new element, or take the place of the one that they are in.
    Wrap { name: Name },
}

/// Commands by their names, in the order of the names' bytes, each name once.
#[derive(Debug, Drop)]
pub struct CommandSet {
    pub commands: Vec<(Name, Command)>,
}

/// What is said of a command: whether what it does is done already, and whether it can be executed. (After `Command.value` and
/// `Command.isEnabled` of CKEditor 5.)
#[derive(Clone, Copy, Debug)]
pub struct CommandState {
    pub on: bool,
    pub enabled: bool,
}

/// Why a command makes no edits. Where several hold, the first in this order is answered.
#[derive(Debug, Drop)]
pub enum CommandFault {
    /// No command has this name.
    Unknown,
    /// A command that types has no text, or another one has a text.
    BadArgument,
    /// The command can't be executed in this document.
    Disabled,
    /// Memory ran out.
    NoMemory,
}
