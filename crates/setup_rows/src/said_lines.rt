//! Statements and their words.

use crate::input_texts::joined;
use crate::read_words::{push_none, push_text};
use setup_statements::{
    Keyword, Statement, print_forwarder, print_ingress, print_instance, print_local, print_peer,
    print_rule, print_target, read_statement,
};
use std::alloc::Global;
use text_words::Pieces;
use wire_base::{Bytes, OutOfMemory};

/// The statement of a line's words; None where it is none.
fn statement_of(line: &[u8]) -> Option<Statement> {
    let mut words = Pieces::of(line, b' ');
    let word = words.next()?;
    let keyword = Keyword::of(word)?;
    read_statement(keyword, &mut words)
}

/// Appends the printed line of a statement.
fn print_statement(out: &mut Bytes, statement: &Statement) -> Result<(), OutOfMemory> {
    match statement {
        Statement::Local(local) => print_local(out, local),
        Statement::Target(target) => print_target(out, target),
        Statement::Peer(peer) => print_peer(out, *peer),
        Statement::Forwarder(entry) => print_forwarder(out, entry.name.as_str(), &entry.address),
        Statement::Ingress(name) => print_ingress(out, name.as_str()),
        Statement::Instance(entry, bound) => {
            print_instance(out, entry.name.as_str(), &entry.rd, entry.kind, bound)
        }
        Statement::Rule(rule) => print_rule(out, rule),
    }
}

/// A word as a keyword.
pub(crate) fn keyword_row(alloc: Global, out: &mut Bytes, word: &[u8]) -> Result<(), OutOfMemory> {
    let Some(keyword) = Keyword::of(word) else {
        return push_none(out);
    };
    let text = format!(in alloc; "  {keyword:?}\n")?;
    push_text(out, text.as_str())
}

/// A line as a statement, which is printed.
pub(crate) fn line_row(out: &mut Bytes, line: &[u8]) -> Result<(), OutOfMemory> {
    let Some(statement) = statement_of(line) else {
        return push_none(out);
    };
    out.push_all(b"  ")?;
    print_statement(out, &statement)
}

/// Words as a function: whether it must see the header.
pub(crate) fn function_row(
    alloc: Global,
    out: &mut Bytes,
    words: &[u8],
) -> Result<(), OutOfMemory> {
    let line = joined(alloc, b"instance a 0000fde800000001 41 aware ", words)?;
    match statement_of(line.as_slice()) {
        Some(Statement::Instance(_, bound)) => {
            let told = bound.function.is_on_metadata();
            out.push_all(if told {
                b"  on metadata\n"
            } else {
                b"  on the frame\n"
            })
        }
        _ => push_none(out),
    }
}
