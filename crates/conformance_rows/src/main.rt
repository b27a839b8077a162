//! The tables of `conformance_vectors`, run through this project's decoders and encoders.
//!
//! It prints a line for each case: the case's name, whether the whole input has the answer of the table, and in how many of its
//! cuttings it has it; where the input is accepted, also whether it is written again. A cutting is one into two pieces that a feed
//! gets; the content of an UPDATE, which no feed reads, is cut off at its end, and the answer is then that of its two lengths. The
//! value of an SFP attribute is read whole; where it is accepted, it is also shown whether its copy is the same.
//!
//! A line of standard input is the end of a content of 4,077 bytes, the most that a message has, in hexadecimal digits; before it
//! stand withdrawn routes of zeros. Behind the word `sfp` they are the end of the value of an SFP attribute of 4,069 bytes, the
//! most that an UPDATE has; before it stands a part of kind 6. Of each the answer is printed.
#![tactic(auto)]

mod answers;
mod contents;
mod headers;
mod messages;
mod values;

use conformance_vectors::{bgp_cases, nsh_cases, sfp_head_cases, sfp_value_cases, update_cases};

fn main(rt: HostRuntime) -> anyhow::Result<()> {
    let alloc = rt.alloc();
    println!(rt; "nsh")?;
    for case in &nsh_cases().cases {
        headers::show(&rt, case)?;
    }
    println!(rt; "bgp")?;
    for case in &bgp_cases().cases {
        messages::show(&rt, alloc, case)?;
    }
    println!(rt; "updates")?;
    for case in &update_cases().cases {
        contents::show(&rt, alloc, case)?;
    }
    println!(rt; "sfp")?;
    for case in &sfp_value_cases().cases {
        values::show(&rt, alloc, case)?;
    }
    for case in &sfp_head_cases().cases {
        values::show(&rt, alloc, case)?;
    }
    println!(rt; "contents of 4,077 bytes")?;
    for line in rt.lines(alloc) {
        let line = line?;
        match line.as_str().strip_prefix("sfp ") {
            Some(digits) => values::show_longest(&rt, alloc, digits)?,
            None => contents::show_longest(&rt, alloc, line.as_str())?,
        }
    }
    Ok(())
}
