//! The view that is read into the model.
ghost use Rattle.std.specs.Prelude.{◌≡◌};
ghost use Rattle.upcast_definitions.specs.Forms.{view_of};

use ck_base::attributes::ViewAttrs;
use ck_base::name::Name;
use ck_base::text::ViewText;
use std::marker::Model;

/// A node of the view that is read into the model. (After `Text` and `Element` of CKEditor 5's view.)
#[derive(Debug, Drop)]
#[cycle(views)]
pub enum ViewItem {
    /// A text.
    Text(ViewText),
    /// An element.
    Element {
        name: Name,
        attrs: ViewAttrs,
        children: ViewList,
    },
}

/// Nodes of the view in their order.
#[derive(Debug, Drop)]
#[cycle(views)]
pub struct ViewList {
    items: Vec<ViewItem>,
}

impl Model for ViewList {
    ghost use Rattle.std.specs.Prelude.{List};
    ghost use Rattle.upcast_definitions.specs.Form.{Form, depth_of};
    ghost use Rattle.upcast_definitions.specs.FormCode.{coded_forms};

    ghost Value = { List Form };

    ghost coded = { coded_forms };

    ghost use Rattle.upcast_definitions.specs.Forms.{view_of};

    ghost view = { λ list. view_of list.items.items };

    ghost size = { depth_of };

    ghost use Rattle.upcast_definitions.specs.FormsFall.{forms_larger};

    ghost size_decreases = { λ list h. forms_larger list.items.items };
}

impl ViewList {
    /// These nodes as a list.
    pub fn new(items: Vec<ViewItem>) -> ViewList
        ensures { result ≡ view_of items.items }
    {
        ViewList { items }
    }

    /// The nodes in their order.
    pub fn as_slice(&self) -> &[ViewItem]
        ensures { view_of result.now ≡ self.now }
    {
        &self.items
    }
}
