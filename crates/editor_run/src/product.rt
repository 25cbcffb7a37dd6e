//! The program with this product's converters and fixers.
ghost use Rattle.std.specs.Prelude.{◌≡◌, true};
ghost use Rattle.ck_base.specs.Name.{is_name};

use crate::run::run;
use ck_base::NoMemory;
use ck_base::steps::{Ledger, Steps};
use ck_io::{Files, Sink};
use conv_rules::converter::Converter;
use editor_core::{Extensions, Named};
use post_fix::fixer::Fixer;
use product_objects::{Checkbox, HeadingAnchor, ListIndent, Mention, name_of};
use std::alloc::Global;

/// A converter of the product, with its name. It answers `NoMemory` alone beside Ok.
fn converter(
    alloc: Global,
    name: &str,
    object: Box<dyn Converter>,
) -> Result<Named<Box<dyn Converter>>, NoMemory>
    requires { is_name name.now ≡ true }
{
    let name = name_of(alloc, name)?;
    Ok(Named { name, object })
}

/// A fixer of the product, with its name. It answers `NoMemory` alone beside Ok.
fn fixer(
    alloc: Global,
    name: &str,
    object: Box<dyn Fixer>,
) -> Result<Named<Box<dyn Fixer>>, NoMemory>
    requires { is_name name.now ≡ true }
{
    let name = name_of(alloc, name)?;
    Ok(Named { name, object })
}

/// Runs the program with this product's converters handed in, `mention`, `checkbox` and `headingAnchor`, and its fixer `listIndent`. It answers the
/// status of `run`, or `NoMemory` where there was none for these objects, and then nothing was fetched or written.
#[tactic(auto, unfolding(ck_base::specs::Name::is_name))]
pub fn run_product<F: Files, S: Sink, L: Ledger>(
    alloc: Global,
    words: &[String],
    files: &mut F,
    out: &mut S,
    steps: &mut Steps<L>,
) -> Result<u8, NoMemory> {
    let converters = vec![in alloc;
        converter(alloc, "mention", Box::new(alloc, Mention)?)?,
        converter(alloc, "checkbox", Box::new(alloc, Checkbox)?)?,
        converter(alloc, "headingAnchor", Box::new(alloc, HeadingAnchor)?)?,
    ]?;
    let fixers = vec![in alloc; fixer(alloc, "listIndent", Box::new(alloc, ListIndent)?)?]?;
    let extensions = Extensions { converters, fixers };
    Ok(run(alloc, words, files, out, extensions, steps))
}
