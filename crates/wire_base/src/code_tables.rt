ghost use Rattle.std.specs.Prelude.{◌≡◌, ◌++◌, ◌∷◌, [], Some, IfSome, if◌then◌else◌};
ghost use Rattle.std.specs.Option.{option_map};
ghost use Rattle.wire_base.specs.Codes.{IsTable, is_new, takes, name_in, code_in};

use arrayvec::ArrayVec;
use std::marker::Model;

/// A code and its name.
#[derive(Debug, Drop)]
struct CodeRow {
    code: u16,
    name: &'static str,
}

impl Model for CodeRow {
    ghost use Rattle.wire_base.specs.Codes.{Row};

    ghost Value = { Row };

    ghost view = { λ r. record { code = r.code; name = r.name.now } };
}

impl Default for CodeRow {
    fn default() -> CodeRow {
        CodeRow { code: 0, name: "" }
    }
}

/// At most N codes with their names. The codes rise and no two names are the same.
#[derive(Debug, Drop)]
pub struct CodeTable<const N: usize> {
    rows: ArrayVec<CodeRow, N>,
}

impl<const N: usize> Model for CodeTable<N> {
    ghost use Rattle.std.specs.Prelude.{List};
    ghost use Rattle.wire_base.specs.Codes.{Row, IsTable};

    ghost Value = { List Row };

    ghost view = { λ t. t.rows.items };

    ghost invariant = { λ t. IsTable t.rows.items };
}

impl<const N: usize> CodeTable<N> {
    /// The table without rows.
    pub fn new() -> CodeTable<N>
        ensures { result ≡ [] }
    {
        CodeTable {
            rows: ArrayVec::new(),
        }
    }

    /// Whether the code is above all codes and no row has the name.
    fn is_new(&self, code: u16, name: &str) -> bool
        ensures { result ≡ is_new self.now (record { code = code; name = name.now }) }
    {
        self.rows
            .iter()
            .all(|row| row.code < code && row.name != name)
    }

    fn name_by(&self, code: u16) -> Option<&'static str>
        ensures value { option_map (λ name. name.now) result ≡ name_in self.now code }
        ensures table { IsTable self.now }
    {
        let row = self.rows.iter().find(|row| row.code == code)?;
        Some(row.name)
    }

    fn code_by(&self, name: &str) -> Option<u16>
        ensures value { result ≡ code_in self.now name.now }
        ensures table { IsTable self.now }
    {
        let row = self.rows.iter().find(|row| row.name == name)?;
        Some(row.code)
    }

    /// Appends a row. False, with the table unchanged, exactly where there are N rows, the code is not above the last
    /// row's, or a row has the name.
    #[tactic(auto, using(crate::proofs::CodeLemmas::table_longer))]
    pub fn add(&mut self, code: u16, name: &'static str) -> bool
        ensures taken { result ≡ takes N self.old (record { code = code; name = name.now }) }
        ensures rows { self.new ≡ (if result then self.old ++ record { code = code; name = name.now } ∷ [] else self.old) }
    {
        if self.rows.is_full() {
            return false;
        }
        if !self.is_new(code, name) {
            return false;
        }
        self.rows.push(CodeRow { code, name });
        true
    }

    /// The name of a code; None exactly where no row has the code.
    pub fn name_of(&self, code: u16) -> Option<&'static str>
        ensures value { option_map (λ name. name.now) result ≡ name_in self.now code }
        ensures undone { IfSome result (λ name. code_in self.now name.now ≡ Some code) }
    {
        self.name_by(code)
    }

    /// The code of a name; None exactly where no row has the name.
    pub fn code_of(&self, name: &str) -> Option<u16>
        ensures value { result ≡ code_in self.now name.now }
        ensures undone { IfSome result (λ code. name_in self.now code ≡ Some name.now) }
    {
        self.code_by(name)
    }
}
