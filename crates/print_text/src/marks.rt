//! The marks of a selection, and texts with marks between their characters.
ghost use Rattle.std.specs.Prelude.{◌≡◌, ◌∷◌, [], ◌++◌, ◌+◌, ◌<◌, ◌^◌, nat_eq, length, OnOk, string_bytes};
ghost use Rattle.std.specs.Cmp.Lexicographic.{pointwise};
ghost use Rattle.print_definitions.specs.Marks.{behind, inside, mark_at, marked};
ghost use Rattle.print_text.specs.Ends.{places_of, marks_in};

use ck_base::NoMemory;
use text_escapes::escapes::push_text;

/// Where a selection starts and where it ends: what is left of each place below what is printed, and nothing where it lies elsewhere.
#[derive(Clone, Copy, Debug)]
pub struct Marks<'a> {
    /// What is left of the start.
    pub start: &'a [u64],
    /// What is left of the end.
    pub end: &'a [u64],
}

/// Which brackets marks are printed as.
#[derive(Clone, Copy, Debug, PartialEq, Eq)]
pub enum Brackets {
    /// `[` and `]`, between items or nodes.
    Square,
    /// `{` and `}`, in a text of a view.
    Curly,
}

/// What is left of a place in what stands at an index.
fn behind(place: &[u64], index: u64) -> &[u64]
    ensures { result.now ≡ behind index place.now }
{
    let Some((first, rest)) = place.split_first() else {
        return place;
    };
    if *first == index { rest } else { &place[..0] }
}

/// Whether a place is an index here.
fn is_at(place: &[u64], index: u64) -> bool
    ensures { result ≡ pointwise nat_eq place.now (index ∷ []) }
{
    place == [index].as_slice()
}

/// Puts a mark last, if its place is at an index.
fn push_mark(out: &mut String, mark: &str, place: &[u64], index: u64) -> Result<(), NoMemory>
    ensures { OnOk result (string_bytes out.new ≡ string_bytes out.old ++ mark_at mark.now place.now index) }
{
    if is_at(place, index) {
        out.push_str(mark)?;
    }
    Ok(())
}

impl<'a> Marks<'a> {
    /// The marks in what stands at an index.
    pub fn inside(self, index: u64) -> Marks<'a>
        ensures { places_of result ≡ inside index (places_of self.entry) }
    {
        Marks {
            start: behind(self.start, index),
            end: behind(self.end, index),
        }
    }

    /// Puts the marks at an index last: the opening one, then the closing one.
    pub fn push(self, out: &mut String, brackets: Brackets, index: u64) -> Result<(), NoMemory>
        ensures { OnOk result (string_bytes out.new ≡ string_bytes out.old ++ marks_in brackets (places_of self.entry) index) }
    {
        let (opening, closing) = match brackets {
            Brackets::Square => ("[", "]"),
            Brackets::Curly => ("{", "}"),
        };
        push_mark(out, opening, self.start, index)?;
        push_mark(out, closing, self.end, index)
    }

    /// Puts characters from an offset on last, with the marks before each.
    pub fn push_marked(
        self,
        out: &mut String,
        brackets: Brackets,
        offset: u64,
        scalars: &[char],
    ) -> Result<(), NoMemory>
        requires { offset + length scalars.now < 2 ^ 64 }
        ensures { OnOk result (string_bytes out.new ≡ string_bytes out.old ++ marked (marks_in brackets (places_of self.entry)) offset scalars.now) }
    {
        let mut offset = offset;
        for scalar in scalars {
            self.push(out, brackets, offset)?;
            push_text(out, [*scalar].as_slice())?;
            offset += 1;
        }
        Ok(())
    }
}
