//! What each change is held to.
use post_fix::list::FixerList;
use schema_rules::schema::Schema;

/// What each change of an editor's document is held to: a schema, fixers, and in how many rounds these have to come to rest.
#[derive(Drop)]
pub struct Terms {
    pub(crate) schema: Schema,
    pub(crate) fixers: FixerList,
    pub(crate) rounds: u32,
}
