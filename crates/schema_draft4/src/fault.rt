// What stands against a schema.
use gw_base::{Memory, Text};
use json_subset::NodeId;
use std::alloc::{AllocError, AllocFailed};

/// Why a part of a document is no schema. A fault that has a place names it by the part that begins there.
#[derive(Drop)]
pub enum SchemaFault {
    /// A keyword's value is of another form than draft 4 or this product gives it, or a pattern is over 1,024 bytes;
    /// the value, or the schema that is no object.
    BadKeyword(NodeId),
    /// `patternProperties`, `dependencies`, or a `$ref` to anything but `#` and `#/definitions/NAME`.
    Unsupported(Text),
    /// A `$ref` that leads back to itself through no properties and no items: the name that it has, `#` for the root.
    RefCycle(Text),
    /// A `$ref` to a name that the root's `definitions` lacks.
    RefMissing(Text),
    /// A pattern that is none of `regex`, or is nested too deep for it.
    BadPattern(NodeId),
    /// Memory ran out.
    Memory,
}

impl From<AllocError> for SchemaFault {
    ghost use Rattle.std.specs.Prelude.{◌≡◌};
    ghost use Rattle.schema_draft4.specs.declared.fault.SchemaFault.TheVariants.{Memory as no_memory};

    ghost from_gives = { λ _ e. e ≡ no_memory };

    fn from(_error: AllocError) -> SchemaFault {
        SchemaFault::Memory
    }
}

impl<T: Drop> From<AllocFailed<T>> for SchemaFault {
    ghost use Rattle.std.specs.Prelude.{◌≡◌};
    ghost use Rattle.schema_draft4.specs.declared.fault.SchemaFault.TheVariants.{Memory as no_memory};

    ghost from_gives = { λ _ e. e ≡ no_memory };

    fn from(_error: AllocFailed<T>) -> SchemaFault {
        SchemaFault::Memory
    }
}

impl From<Memory> for SchemaFault {
    ghost use Rattle.std.specs.Prelude.{◌≡◌};
    ghost use Rattle.schema_draft4.specs.declared.fault.SchemaFault.TheVariants.{Memory as no_memory};

    ghost from_gives = { λ _ e. e ≡ no_memory };

    fn from(_: Memory) -> SchemaFault {
        SchemaFault::Memory
    }
}
