//! Laws of what was read.
ghost use Rattle.schema_draft4.specs.Laws.{OrderedByRead};

/// The schemas that are accepted come in an order, so that no chain of them is cut: `check` is total over them.
pub fn accepted_schemas_come_in_an_order(schema: &crate::Schema)
    ensures { OrderedByRead schema.now }
{
    schema.ordered()
}
