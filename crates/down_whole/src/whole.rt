//! The whole view of a document.
ghost use Rattle.std.specs.Prelude.{◌≡◌, ◌≤◌, ◌+◌, ◌*◌, [], None, length, OnOk, IfOk, option_map, codes};
ghost use Rattle.view_definitions.specs.Node.{content as content_of};
ghost use Rattle.conv_rules.specs.Listed.{boxed_count, conversion_of};
ghost use Rattle.downcast_definitions.specs.Scene.{Numbers, numbered_scene, caret_of};
ghost use Rattle.downcast_definitions.specs.Rows.{downcast};
ghost use Rattle.downcast_definitions.specs.Shown.{HasShapes};
ghost use Rattle.item_definitions.specs.Item.{items_of};
ghost use Rattle.document_definitions.specs.Document.{ids_of};
ghost use Rattle.pos_mapper.specs.Bindings.{numbers_of};
ghost use Rattle.pos_mapper.specs.Mapped.{IsMapped};
ghost use Rattle.down_whole.specs.Viewed.{caret_view};
ghost use Rattle.down_whole.specs.Made.{MadeContent};
ghost use Rattle.down_whole.specs.Bound.{elements_among, AreBelow};
ghost use Rattle.downcast_definitions.specs.Numbered.{AreNumbered};

use crate::caret::{Caret, caret_of};
use crate::content::{Parent, content};
use crate::maker::Maker;
use crate::scene::Scene;
use ck_base::NoMemory;
use ck_base::name::{Name, NameFault};
use ck_base::path::Path;
use ck_base::steps::{Ledger, Steps};
use conv_rules::list::ConverterList;
use model_doc::Document;
use pos_mapper::mapper::Mapper;
use std::alloc::{AllocError, Global};
use view_tree::node::Children;
use view_tree::path::ViewPath;
use view_tree::view::View;

/// The name of the root.
#[tactic(auto, unfolding(ck_base::specs::Name::is_name))]
fn root_name(alloc: Global) -> Result<Name, NoMemory>
    ensures { IfOk result (λ name. name ≡ codes "$root") }
{
    match Name::read(alloc, "$root") {
        Ok(name) => Ok(name),
        Err(NameFault::NoMemory) => Err(AllocError),
        Err(NameFault::NotAName) => unreachable!(),
    }
}

/// A view with these nodes in place of its own.
fn with_nodes(alloc: Global, view: View, nodes: Children) -> View
    ensures nodes { result.nodes ≡ nodes.nodes }
    ensures drawn { result.drawn ≡ view.drawn }
{
    let mut view = view;
    let root = ViewPath::root(alloc);
    let _none = view.take_children(&root);
    match view.put_children(&root, nodes) {
        Ok(()) => view,
        Err(_) => unreachable!(),
    }
}

/// The view of a document with this caret, and its mapper.
fn made<L: Ledger>(
    alloc: Global,
    list: &ConverterList,
    document: &Document,
    caret: Option<&Caret>,
    steps: &mut Steps<L>,
) -> Result<(View, Mapper), NoMemory>
    requires { option_map (λ here. caret_view here.now) caret ≡ caret_of (conversion_of (λ object. gives (object.vtable, object.value)) list.now)
        document.now.state.document }
    ensures made { IfOk result (λ both. (numbers : Numbers)
        → MadeContent (numbered_scene numbers (conversion_of (λ object. gives (object.vtable, object.value)) list.now) document.now.state.document)
        (codes "$root") [] 0 document.now.state.document.items both.0.nodes (record { bindings = []; caret = None }) both.1) }
    ensures shapes { OnOk result (HasShapes (conversion_of (λ object. gives (object.vtable, object.value)) list.now) document.now.state.document) }
    ensures drawn { IfOk result (λ both. both.0.drawn ≡ elements_among (items_of document.now.state.document.items)) }
    ensures calls { steps.new ≤ steps.old + boxed_count (conversion_of (λ object. gives (object.vtable, object.value)) list.now).converters *
        elements_among (items_of document.now.state.document.items) }
{
    let scene = Scene::new(alloc, list, document.markers(), caret)?;
    let mut maker = Maker {
        view: View::new(alloc),
        mapper: Mapper::new(alloc),
    };
    let root = root_name(alloc)?;
    let path = Path::new(alloc);
    let parent = Parent {
        name: &root,
        path: &path,
    };
    let items = document.tree().items();
    let nodes = content(list, &scene, &parent, items, &mut maker, steps)?;
    let Maker { view, mapper } = maker;
    Ok((with_nodes(alloc, view, nodes), mapper))
}

/// The view of a document, as the converters of a list make it, and the mapper of the view. Each element is numbered, and bound to its view
/// element, also one that the view doesn't show; no two have one number. The view has drawn as many numbers as there are elements, and each
/// that is bound is one of them. No more tokens are drawn than there are converters of the product times elements, also where memory runs out. It
/// answers `NoMemory` alone beside Ok.
pub fn downcast<L: Ledger>(
    alloc: Global,
    list: &ConverterList,
    document: &Document,
    steps: &mut Steps<L>,
) -> Result<(View, Mapper), NoMemory>
    ensures view { IfOk result (λ both. content_of both.0.nodes ≡ downcast (conversion_of (λ object. gives (object.vtable, object.value)) list.now)
        document.now.state.document) }
    ensures mapper { IfOk result (λ both. IsMapped (conversion_of (λ object. gives (object.vtable, object.value)) list.now) document.now.state.document
        both.1 both.0.nodes) }
    ensures numbered { IfOk result (λ both. AreNumbered (numbers_of both.1) (ids_of document.now.state.document.items)) }
    ensures shapes { OnOk result (HasShapes (conversion_of (λ object. gives (object.vtable, object.value)) list.now) document.now.state.document) }
    ensures drawn { IfOk result (λ both. both.0.drawn ≡ length (ids_of document.now.state.document.items)) }
    ensures below { IfOk result (λ both. AreBelow both.0.drawn (numbers_of both.1)) }
    ensures calls { steps.new ≤ steps.old + boxed_count (conversion_of (λ object. gives (object.vtable, object.value)) list.now).converters * length
        (ids_of document.now.state.document.items) }
{
    let _tree = document.tree();
    let caret = caret_of(alloc, list, document)?;
    let both = made(alloc, list, document, caret.as_ref(), steps)?;
    Ok(both)
}
