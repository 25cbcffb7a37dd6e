//! The names that a walk over a document needs: those of the ancestors that it is in, and the one by which a schema knows characters.
ghost use Rattle.std.specs.Prelude.{◌≡◌, ℕ, List, [], ◌∷◌, ◌++◌, true, codes, IfOk, OnOk};
ghost use Rattle.ck_base.specs.Name.{is_name};

use ck_base::NoMemory;
use ck_base::name::{Name, NameFault};
use std::alloc::{AllocError, Global};

/// The name that a text is.
fn name_of(alloc: Global, text: &str) -> Result<Name, NoMemory>
    requires { is_name text.now ≡ true }
    ensures { IfOk result (λ name. name ≡ text.now) }
{
    match Name::read(alloc, text) {
        Ok(name) => Ok(name),
        Err(NameFault::NotAName) => unreachable!(),
        Err(NameFault::NoMemory) => Err(AllocError),
    }
}

/// The name of each character.
#[tactic(auto, unfolding(ck_base::specs::Name::is_name))]
pub(crate) fn text_name(alloc: Global) -> Result<Name, NoMemory>
    ensures { IfOk result (λ name. name ≡ codes "$text") }
{
    name_of(alloc, "$text")
}

/// The names of the ancestors that the items of the root have.
#[tactic(auto, unfolding(ck_base::specs::Name::is_name))]
pub(crate) fn root_names(alloc: Global) -> Result<Vec<Name>, NoMemory>
    ensures { IfOk result (λ names. names.items ≡ codes "$root" ∷ []) }
{
    let mut names = Vec::new(alloc);
    names.push(name_of(alloc, "$root")?)?;
    Ok(names)
}

/// Goes into an element of this name.
pub(crate) fn enter(names: &mut Vec<Name>, name: &Name) -> Result<(), NoMemory>
    ensures { OnOk result (names.new.items ≡ names.old.items ++ name.now ∷ []) }
{
    names.push(name.copy()?)?;
    Ok(())
}

/// Goes back out of the last element.
#[tactic(auto, using(crate::proofs::Ancestors::left))]
pub(crate) fn leave(names: &mut Vec<Name>)
    ensures { (above : List (List ℕ)) (name : List ℕ) → names.old.items ≡ above ++ name ∷ [] → names.new.items ≡ above }
{
    let _ = names.pop();
}
