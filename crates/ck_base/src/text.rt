ghost use Rattle.std.specs.Prelude.{◌≡◌, ◌↔◌, true, false, encode_utf8_all, IsTrue, IfOk, IsErrOf};
ghost use Rattle.std.specs.Str.{chars};
ghost use Rattle.std.specs.Rc.{rc_slice_items};
ghost use Rattle.ck_base.specs.Text.{is_within_text_limit};

use crate::NoMemory;
use std::alloc::Global;
use std::marker::Model;
use std::rc::RcSlice;
use thiserror::Error;

/// Why a text is no attribute text.
#[derive(Debug, Drop, Error)]
pub enum TextFault {
    /// The text has more than 4,096 bytes of UTF-8.
    #[error("a text value has at most 4096 bytes")]
    TooLong,
    /// Memory ran out.
    #[error("out of memory")]
    NoMemory,
}

/// The most bytes of UTF-8 that an attribute's text may have.
pub const MOST_TEXT_BYTES: usize = 4096;

/// The text of an attribute, of at most 4,096 bytes of UTF-8, as its Unicode scalar values. Its copies share one list.
#[derive(Debug, Drop)]
pub struct TextVal {
    scalars: RcSlice<char>,
    ghost fits: { is_within_text_limit (encode_utf8_all (rc_slice_items scalars)) ≡ true },
}

impl Model for TextVal {
    ghost use Rattle.std.specs.Prelude.{ℕ, List};
    ghost use Rattle.std.specs.Rc.{rc_slice_items};

    ghost Value = { List ℕ };

    ghost view = { λ text. rc_slice_items text.scalars };
}

impl TextVal {
    /// The text, as scalar values. It answers `TooLong` exactly where there are more than 4,096 bytes, and `NoMemory`.
    #[tactic(auto, using(crate::proofs::Scalars::bytes_again))]
    pub fn read(alloc: Global, text: &str) -> Result<TextVal, TextFault>
        ensures ok { IfOk result (λ read. read ≡ chars text.now) }
        ensures fits { IfOk result (λ _. is_within_text_limit text.now ≡ true) }
        ensures too_long { IsErrOf result TextFault.TooLong ↔ (is_within_text_limit text.now ≡ false) }
    {
        if text.len() > MOST_TEXT_BYTES {
            return Err(TextFault::TooLong);
        }
        match scalars_of(alloc, text) {
            Ok(scalars) => Ok(TextVal { scalars }),
            Err(_) => Err(TextFault::NoMemory),
        }
    }

    /// The same text.
    pub fn copy(&self) -> Result<TextVal, NoMemory>
        ensures { IfOk result (λ text. text ≡ self.now) }
    {
        let scalars = self.scalars.clone()?;
        Ok(TextVal { scalars })
    }

    /// Its Unicode scalar values, in order. Their UTF-8 has at most 4,096 bytes.
    pub fn scalars(&self) -> &[char]
        ensures scalars { result.now ≡ self.now }
        ensures fits { is_within_text_limit (encode_utf8_all self.now) ≡ true }
    {
        self.scalars.as_slice()
    }
}

impl PartialEq for TextVal {
    ghost use Rattle.std.specs.Prelude.{nat_eq};
    ghost use Rattle.std.specs.Cmp;
    ghost use Rattle.std.specs.Cmp.Lexicographic.{pointwise, nat_list_eq_equiv};

    ghost eq = { pointwise nat_eq };

    ghost laws = { Cmp.partial_equiv_from_equiv nat_list_eq_equiv };

    fn eq(&self, other: &TextVal) -> bool
        ensures gives { result ≡ pointwise nat_eq self.now other.now }
        ensures same { IsTrue result ↔ (self.now ≡ other.now) }
    {
        self.scalars() == other.scalars()
    }
}

/// A text of the view, of any length, as its Unicode scalar values. Its copies share one list.
#[derive(Debug, Drop)]
pub struct ViewText {
    scalars: RcSlice<char>,
}

impl Model for ViewText {
    ghost use Rattle.std.specs.Prelude.{ℕ, List};
    ghost use Rattle.std.specs.Rc.{rc_slice_items};

    ghost Value = { List ℕ };

    ghost view = { λ text. rc_slice_items text.scalars };
}

impl ViewText {
    /// The text, as scalar values. It answers `NoMemory` alone beside Ok.
    pub fn read(alloc: Global, text: &str) -> Result<ViewText, NoMemory>
        ensures { IfOk result (λ read. read ≡ chars text.now) }
    {
        let scalars = scalars_of(alloc, text)?;
        Ok(ViewText { scalars })
    }

    /// The text of these scalar values. It answers `NoMemory` alone beside Ok.
    pub fn from_scalars(scalars: Vec<char>) -> Result<ViewText, NoMemory>
        ensures { IfOk result (λ text. text ≡ scalars.items) }
    {
        let scalars = RcSlice::from_vec(scalars)?;
        Ok(ViewText { scalars })
    }

    /// The same text.
    pub fn copy(&self) -> Result<ViewText, NoMemory>
        ensures { IfOk result (λ text. text ≡ self.now) }
    {
        let scalars = self.scalars.clone()?;
        Ok(ViewText { scalars })
    }

    /// Its Unicode scalar values, in order.
    pub fn scalars(&self) -> &[char]
        ensures { result.now ≡ self.now }
    {
        self.scalars.as_slice()
    }
}

impl PartialEq for ViewText {
    ghost use Rattle.std.specs.Prelude.{nat_eq};
    ghost use Rattle.std.specs.Cmp;
    ghost use Rattle.std.specs.Cmp.Lexicographic.{pointwise, nat_list_eq_equiv};

    ghost eq = { pointwise nat_eq };

    ghost laws = { Cmp.partial_equiv_from_equiv nat_list_eq_equiv };

    fn eq(&self, other: &ViewText) -> bool
        ensures gives { result ≡ pointwise nat_eq self.now other.now }
        ensures same { IsTrue result ↔ (self.now ≡ other.now) }
    {
        self.scalars() == other.scalars()
    }
}

/// The scalar values of a text.
pub(crate) fn scalars_of(alloc: Global, text: &str) -> Result<RcSlice<char>, NoMemory>
    ensures { IfOk result (λ scalars. rc_slice_items scalars ≡ chars text.now) }
{
    let scalars: Vec<char> = text.chars().collect(alloc)?;
    RcSlice::from_vec(scalars)
}
