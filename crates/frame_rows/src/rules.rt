//! The list of rules of the rows.

use crate::texts::OrDash;
use classifier::{Action, RuleList};
use setup_statements::{Keyword, Statement, read_statement};
use std::io;
use text_words::Pieces;
use wire_base::OutOfMemory;

/// Appends the rule of a row `rule WORD ..`; false where it tells none, or there are 256.
pub(crate) fn push_rule(rules: &mut RuleList, line: &str) -> Result<bool, OutOfMemory> {
    if rules.len() >= 256 {
        return Ok(false);
    }
    let mut words = Pieces::of(line.as_bytes(), b' ');
    if words.next() != Some(b"rule") {
        return Ok(false);
    }
    match read_statement(Keyword::Rule, &mut words) {
        Some(Statement::Rule(rule)) => {
            rules.push(rule)?;
            Ok(true)
        }
        _ => Ok(false),
    }
}

/// `rules`: the VLAN identifier and the action of each rule, the first first.
pub(crate) fn show_rules<R: Print>(rt: &R, rules: &RuleList) -> io::Result<bool> {
    for i in 0..rules.len() {
        let rule = rules.rule(i);
        println!(rt;
            "  {i} vlan={} {}",
            OrDash(rule.vlan),
            action_word(&rule.action)
        )?;
    }
    Ok(true)
}

fn action_word(action: &Action) -> &'static str {
    match action {
        Action::Path(_, _, _, _) => "path",
        Action::Bypass => "bypass",
        Action::Refuse => "refuse",
    }
}
