use record_text::drop_reasons;

#[test]
fn drop_reasons_have_their_words(rt: HostRuntime) {
    assert_eq!(rt; drop_reasons().name_of(9), Some("too-long"));
    assert_eq!(rt; drop_reasons().code_of("too-big"), None);
}
