use pcap_io::Form;

/// The word of a form.
pub fn form_word(form: Form) -> &'static str {
    match (form.nano, form.big) {
        (false, false) => "micro-little",
        (false, true) => "micro-big",
        (true, false) => "nano-little",
        (true, true) => "nano-big",
    }
}

/// The form of a word.
pub fn form_of(word: &str) -> Option<Form> {
    let (nano, big) = match word {
        "micro-little" => (false, false),
        "micro-big" => (false, true),
        "nano-little" => (true, false),
        "nano-big" => (true, true),
        _ => return None,
    };
    Some(Form { nano, big })
}
