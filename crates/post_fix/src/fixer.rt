//! What a product adds to the fixers.
ghost use Rattle.std.specs.Prelude.{◌≡◌, ◌++◌, OnOk};
ghost use Rattle.fix_definitions.specs.Fixes.{Fixing};
ghost use Rattle.fix_definitions.specs.Settling.{plan_of};

use ck_base::NoMemory;
use edit_definitions::edit::Edit;
use model_doc::Document;

/// A fixer that a product adds. What it plans depends on the items, the markers and the selection of the document alone. (After the callbacks of
/// `Document.registerPostFixer()` of CKEditor 5.)
pub trait Fixer: Drop {
    /// what it plans on a document with these items, these markers and this selection
    ghost fixes: { Self → Fixing };

    /// Puts its plan last, where it is to be performed in this order. It answers `NoMemory` alone beside Ok.
    fn plan(&self, document: &Document, out: &mut Vec<Edit>) -> Result<(), NoMemory>
        ensures { OnOk result (out.new.items ≡ out.old.items ++ plan_of (fixes self.now) document.now.state.document) };
}
