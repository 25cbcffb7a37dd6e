ghost use Rattle.std.specs.Prelude.{◌≡◌, ◌↔◌, ℕ, List, true, false, Some, IsTrue, IfOk, IsErrOf, nat_eq, refl};
ghost use Rattle.std.specs.Ordering.{nat_cmp};
ghost use Rattle.std.specs.Cmp;
ghost use Rattle.std.specs.Cmp.Lexicographic.{pointwise, slice_cmp, nat_list_eq_equiv, nat_list_cmp_total, texts_ties, texts_po};
ghost use Rattle.std.specs.Hash as fed;
ghost use Rattle.std.specs.Cmp.Rules.{hashing};
ghost use Rattle.std.proofs.Common.{rules};
ghost use Rattle.std.specs.List.{list_all};
ghost use Rattle.ck_base.specs.Name.{is_name, is_name_byte};

use crate::NoMemory;
use std::alloc::Global;
use std::cmp::Ordering;
use std::fmt;
use std::hash::{Hash, Hasher};
use std::marker::Model;
use std::rc::RcStr;
use thiserror::Error;

/// Why a text is no name.
#[derive(Debug, Drop, Error)]
pub enum NameFault {
    /// The text breaks the limit on names.
    #[error("a name has 1 to 64 ASCII letters, digits, `_`, `-`, `$` or `:`")]
    NotAName,
    /// Memory ran out.
    #[error("out of memory")]
    NoMemory,
}

/// The name of an item, an attribute, a marker, a view element or a command: 1 to 64 ASCII letters, digits, `_`, `-`, `$` and
/// `:`. Its copies share one text. Names are ordered by their bytes.
#[derive(Drop)]
pub struct Name {
    text: RcStr,
}

impl Model for Name {
    ghost use Rattle.std.specs.Prelude.{◌≡◌, ℕ, List, true};
    ghost use Rattle.std.specs.Rc.{rc_str_bytes};
    ghost use Rattle.ck_base.specs.Name.{is_name};

    ghost Value = { List ℕ };

    ghost view = { λ name. rc_str_bytes name.text };

    ghost invariant = { λ name. is_name (rc_str_bytes name.text) ≡ true };
}

impl Name {
    /// The name that a text is. It answers `NotAName` exactly where the text breaks the limit, and `NoMemory`.
    #[tactic(auto, unfolding(crate::specs::Name::is_name))]
    pub fn read(alloc: Global, text: &str) -> Result<Name, NameFault>
        ensures ok { IfOk result (λ name. name ≡ text.now) }
        ensures is_a_name { IfOk result (λ name. is_name name ≡ true) }
        ensures not_a_name { IsErrOf result NameFault.NotAName ↔ (is_name text.now ≡ false) }
    {
        if !is_a_name(text) {
            return Err(NameFault::NotAName);
        }
        match RcStr::from_str(alloc, text) {
            Ok(text) => Ok(Name { text }),
            Err(_) => Err(NameFault::NoMemory),
        }
    }

    /// The same name.
    pub fn copy(&self) -> Result<Name, NoMemory>
        ensures { IfOk result (λ name. name ≡ self.now) }
    {
        let text = self.text.clone()?;
        Ok(Name { text })
    }

    /// Its text, in ASCII.
    pub fn as_str(&self) -> &str
        ensures text { result.now ≡ self.now }
        ensures is_a_name { is_name self.now ≡ true }
    {
        self.text.as_str()
    }
}

/// Whether a text keeps the limit on names.
#[tactic(auto, unfolding(crate::specs::Name::is_name))]
fn is_a_name(text: &str) -> bool
    ensures { result ≡ is_name text.now }
{
    1 <= text.len() && text.len() <= 64 && are_name_bytes(text.as_bytes())
}

/// Whether all of these bytes may stand in a name.
fn are_name_bytes(bytes: &[u8]) -> bool
    ensures { result ≡ list_all is_name_byte bytes.now }
{
    bytes.iter().all(|byte| is_name_byte(*byte))
}

/// Whether a byte may stand in a name.
fn is_name_byte(byte: u8) -> bool
    ensures { result ≡ is_name_byte byte }
{
    matches!(byte, b'a'..=b'z' | b'A'..=b'Z' | b'0'..=b'9' | b'_' | b'-' | b'$' | b':')
}

impl PartialEq for Name {
    ghost eq = { pointwise nat_eq };

    ghost laws = { Cmp.partial_equiv_from_equiv nat_list_eq_equiv };

    fn eq(&self, other: &Name) -> bool
        ensures gives { result ≡ pointwise nat_eq self.now other.now }
        ensures same { IsTrue result ↔ (self.now ≡ other.now) }
    {
        self.text == other.text
    }
}

impl Eq for Name {
    ghost laws = { nat_list_eq_equiv };
}

impl PartialOrd for Name {
    ghost partial_cmp = { λ x y. Some (slice_cmp nat_cmp x y) };

    ghost laws = { texts_po };

    fn partial_cmp(&self, other: &Name) -> Option<Ordering> {
        Some(self.cmp(other))
    }
}

impl Ord for Name {
    ghost cmp = { slice_cmp nat_cmp };

    ghost total = { nat_list_cmp_total };

    ghost matches_partial_cmp = { λ x y. refl };

    ghost matches_eq = { texts_ties };

    fn cmp(&self, other: &Name) -> Ordering {
        self.text.cmp(&other.text)
    }
}

impl Hash for Name {
    ghost hash_input = { fed.str };

    ghost respects_eq = { Prim.search (hashing, rules) };

    fn hash<H: Hasher>(&self, state: &mut H) {
        self.text.hash(state);
    }
}

impl fmt::Display for Name {
    ghost output = { λ name. Some name };

    fn fmt<W: fmt::Write>(&self, f: &mut fmt::Formatter<W>) -> fmt::Result {
        fmt::Display::fmt(&self.text, f)
    }
}

impl fmt::Debug for Name {
    fn fmt<W: fmt::Write>(&self, f: &mut fmt::Formatter<W>) -> fmt::Result {
        fmt::Debug::fmt(&self.text, f)
    }
}
