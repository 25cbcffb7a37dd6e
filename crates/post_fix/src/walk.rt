//! A walk over a document under a schema.
ghost use Rattle.std.specs.Prelude.{◌≡◌, IfOk, codes};

use crate::names::text_name;
use ck_base::NoMemory;
use ck_base::name::Name;
use schema_rules::schema::Schema;
use std::alloc::Global;

/// What a walk asks: a schema, which knows characters by one name.
#[derive(Debug, Drop)]
pub(crate) struct Walk<'a> {
    pub(crate) schema: &'a Schema,
    pub(crate) text: Name,
    ghost is_text: { text ≡ codes "$text" },
}

impl<'a> Walk<'a> {
    /// A walk under this schema.
    pub(crate) fn new(alloc: Global, schema: &'a Schema) -> Result<Walk<'a>, NoMemory>
        ensures { IfOk result (λ walk. walk.schema.now ≡ schema.now) }
    {
        let text = text_name(alloc)?;
        Ok(Walk { schema, text })
    }
}
