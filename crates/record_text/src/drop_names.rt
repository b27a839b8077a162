//! The table of the words of drop reasons.

ghost use Rattle.std.specs.Prelude.{◌≡◌};
ghost use Rattle.record_text.specs.DropReasons.{reason_rows};

use wire_base::CodeTable;

macro_rules! table_of {
    ($($code:literal => $name:literal),+ $(,)?) => {{
        let mut table = CodeTable::new();
        $(table.add($code, $name);)+
        table
    }};
}

/// The words of the reasons for which a frame is dropped, counted in the order of the record line.
pub fn drop_reasons() -> CodeTable<10>
    ensures { result ≡ reason_rows }
{
    table_of! {
        0 => "rule",
        1 => "nsh-ingress",
        2 => "ttl",
        3 => "no-path",
        4 => "no-instance",
        5 => "denied",
        6 => "hop-limit",
        7 => "meta",
        8 => "meta-full",
        9 => "too-long",
    }
}
