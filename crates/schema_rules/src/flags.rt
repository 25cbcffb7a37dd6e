ghost use Rattle.std.specs.Prelude.{◌≡◌, IfOk};
ghost use Rattle.schema_definitions.specs.declared.file.Flag.{Flag as TheFlag};
ghost use Rattle.schema_rules.specs.Tables.{AreKnown, flag_row};
ghost use Rattle.schema_rules.specs.Flags.{marks_of};

use crate::marks::Marks;
use crate::numbering::Numbering;
use crate::tables::flag_marks;
use ck_base::NoMemory;
use schema_definitions::file::{Entry, Flag};

/// For which names each flag is set.
#[derive(Debug, Drop)]
pub struct FlagMarks {
    block: Marks,
    inline: Marks,
    limit: Marks,
    object: Marks,
    selectable: Marks,
    content: Marks,
}

impl FlagMarks {
    /// For which names this flag is set.
    pub fn of(&self, flag: Flag) -> &Marks
        ensures { result.now ≡ marks_of self.now flag }
    {
        match flag {
            Flag::Block => &self.block,
            Flag::Inline => &self.inline,
            Flag::Limit => &self.limit,
            Flag::Object => &self.object,
            Flag::Selectable => &self.selectable,
            Flag::Content => &self.content,
        }
    }
}

/// For which names each flag is set, by the entries.
pub fn all_flags(names: &Numbering, entries: &[Entry]) -> Result<FlagMarks, NoMemory>
    requires { AreKnown names.now entries.now }
    ensures { IfOk result (λ flags. (flag : TheFlag) → marks_of flags flag ≡ flag_row names.now entries.now flag) }
{
    Ok(FlagMarks {
        block: flag_marks(names, entries, Flag::Block)?,
        inline: flag_marks(names, entries, Flag::Inline)?,
        limit: flag_marks(names, entries, Flag::Limit)?,
        object: flag_marks(names, entries, Flag::Object)?,
        selectable: flag_marks(names, entries, Flag::Selectable)?,
        content: flag_marks(names, entries, Flag::Content)?,
    })
}
