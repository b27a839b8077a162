//! The names of attributes, made once for a stream.

ghost use Rattle.std.specs.Prelude.{◌≡◌, ◌++◌, OnOk};
ghost use Rattle.sfc_texts.specs.BgpText.{attribute_name};

use std::marker::Model;
use text_words::print_number;
use wire_base::{Bytes, CodeTable, OutOfMemory, attribute_kinds};

/// The names of the kinds of attributes.
#[derive(Debug, Drop)]
pub(crate) struct AttributeNames {
    table: CodeTable<12>,
}

impl Model for AttributeNames {
    ghost use Rattle.std.specs.Prelude.{◌≡◌, List};
    ghost use Rattle.wire_base.specs.Codes.{Row};
    ghost use Rattle.wire_base.specs.CodeNames.{attribute_rows};

    ghost Value = { List Row };

    ghost view = { λ n. n.table };

    ghost invariant = { λ n. n.table ≡ attribute_rows };
}

impl AttributeNames {
    pub(crate) fn new() -> AttributeNames {
        AttributeNames {
            table: attribute_kinds(),
        }
    }

    /// Appends the name of a kind of attribute, or its number where it has no name.
    pub(crate) fn print(&self, out: &mut Bytes, kind: u8) -> Result<(), OutOfMemory>
        ensures { OnOk result (out.new ≡ out.old ++ attribute_name kind) }
    {
        match self.table.name_of(u16::from(kind)) {
            Some(name) => out.push_all(name.as_bytes()),
            None => print_number(out, u64::from(kind)),
        }
    }
}
