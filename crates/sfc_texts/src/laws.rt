//! What holds of the texts, whatever prints them.

ghost use Rattle.std.specs.Prelude.{◌≡◌, ℕ, List};
ghost use Rattle.wire_base.specs.Numbers.{AreBytes};
ghost use Rattle.sfc_texts.specs.NshText.{ShowsNsh};
ghost use Rattle.sfc_texts.specs.BgpText.{ShowsBgp};

use nsh_metadata::decode_nsh;

/// Bytes are shown by one text at most.
pub fn bytes_are_shown_once()
    ensures { (bytes s t : List ℕ) → ShowsNsh bytes s → ShowsNsh bytes t → s ≡ t }
{
    nsh_metadata::one_header();
    nsh_metadata::one_refusal();
    nsh_metadata::spelled_is_not_refused();
}

/// Whatever the bytes, some text shows them.
pub fn bytes_are_shown(bytes: &[u8])
    ensures { (text : List ℕ) × ShowsNsh bytes.now text }
{
    let _ = decode_nsh(bytes);
}

/// A stream is shown by one text at most.
pub fn a_stream_is_shown_once()
    ensures { (stream s t : List ℕ) → ShowsBgp stream s → ShowsBgp stream t → s ≡ t }
{}

/// Whatever the stream, some text shows it.
pub fn every_stream_is_shown()
    ensures { (stream : List ℕ) → AreBytes stream → (text : List ℕ) × ShowsBgp stream text }
{}
