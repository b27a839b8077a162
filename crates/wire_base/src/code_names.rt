ghost use Rattle.std.specs.Prelude.{◌≡◌};
ghost use Rattle.wire_base.specs.CodeNames.{next_protocol_rows, attribute_rows, function_rows};

use crate::code_tables::CodeTable;

macro_rules! table_of {
    ($($code:literal => $name:literal),+ $(,)?) => {{
        let mut table = CodeTable::new();
        $(table.add($code, $name);)+
        table
    }};
}

/// The names of Next Protocols (RFC 8300, section 2.2).
pub fn next_protocols() -> CodeTable<7>
    ensures { result ≡ next_protocol_rows }
{
    table_of! {
        1 => "ipv4",
        2 => "ipv6",
        3 => "ethernet",
        4 => "nsh",
        5 => "mpls",
        254 => "experiment-1",
        255 => "experiment-2",
    }
}

/// The names of the kinds of attributes of an UPDATE (RFC 4271, section 5; RFC 1997; RFC 4360; RFC 4760; RFC 9015).
pub fn attribute_kinds() -> CodeTable<12>
    ensures { result ≡ attribute_rows }
{
    table_of! {
        1 => "origin",
        2 => "as-path",
        3 => "next-hop",
        4 => "med",
        5 => "local-pref",
        6 => "atomic-aggregate",
        7 => "aggregator",
        8 => "communities",
        14 => "mp-reach",
        15 => "mp-unreach",
        16 => "ext-communities",
        37 => "sfp",
    }
}

/// The words of the functions that an instance may have, counted in the order of the setup text.
pub fn function_words() -> CodeTable<10>
    ensures { result ≡ function_rows }
{
    table_of! {
        0 => "pass",
        1 => "firewall",
        2 => "remark",
        3 => "nat",
        4 => "hoplimit",
        5 => "push-vlan",
        6 => "pop-vlan",
        7 => "stamp",
        8 => "require-meta",
        9 => "clear-meta",
    }
}
