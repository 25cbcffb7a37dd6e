//! The fixers that a settings file can list.
use ck_base::name::Name;

/// A fixer of the settings. An element is one of the document's, or the root where its name `$root` is given.
#[derive(Debug, Drop)]
pub enum StockFixer {
    /// Attributes that the schema denies go.
    DropAttributes,
    /// Each element `parent` without children gets an element `child`.
    Fill { parent: Name, child: Name },
    /// Each element of this name goes into its left neighbour, where that has the same name and equal attributes.
    JoinNeighbours { name: Name },
    /// Each element of this name without children goes. The root stays.
    RemoveEmpty { name: Name },
    /// Each element `parent` without a child `child` gets one at its end.
    Require { parent: Name, child: Name },
    /// The selection goes where text may stand, unless it stands there or is round one element that can be selected.
    SelectionPlace,
}
