//! Media types of HTTP answers.
ghost use Rattle.std.specs.Prelude.{◌≡◌, ◌↔◌, ◌==◌, IsTrue};
ghost use Rattle.std.specs.List.{before_first};
ghost use Rattle.sd_documents.specs.Media.{is_blank as is_blank_byte, past_blanks, up_to_blanks, IsJsonMedia};

/// Whether a media type is that of JSON, whatever parameters it has. It takes no memory.
pub fn is_json_media(media: &str) -> bool
    ensures { IsTrue result ↔ IsJsonMedia media.now }
{
    let kind = without_end(without_start(without_parameters(media.as_bytes())));
    kind.eq_ignore_ascii_case(b"application/json")
}

/// What stands before the first semicolon.
fn without_parameters(bytes: &[u8]) -> &[u8]
    ensures { result.now ≡ before_first (λ b. b == 59) bytes.now }
{
    for (i, byte) in bytes.iter().enumerate() {
        if *byte == b';' {
            return &bytes[..i];
        }
    }
    bytes
}

fn without_start(bytes: &[u8]) -> &[u8]
    ensures { result.now ≡ past_blanks bytes.now }
{
    let mut rest = bytes;
    while let [first, others @ ..] = rest {
        if !is_blank(*first) {
            return rest;
        }
        rest = others;
    }
    rest
}

fn without_end(bytes: &[u8]) -> &[u8]
    ensures { result.now ≡ up_to_blanks bytes.now }
{
    let mut rest = bytes;
    while let [others @ .., last] = rest {
        if !is_blank(*last) {
            return rest;
        }
        rest = others;
    }
    rest
}

fn is_blank(byte: u8) -> bool
    ensures { result ≡ is_blank_byte byte }
{
    byte == b' ' || byte == b'\t'
}
