//! What of lines with digests is read.
ghost use Rattle.sealed_lines.specs.Laws.{AcceptedAreSealed, SealedAreRead};

/// Lines that are written with their digests are read, and their last digest with them.
pub fn sealed_are_read()
    ensures { SealedAreRead }
{}

/// Whatever is accepted is, byte for byte, the text of its lines with the digest of each behind that of the one before: so a line that was
/// changed, left out, doubled or moved is accepted only where its 64 bits happen to be the same.
pub fn accepted_are_sealed()
    ensures { AcceptedAreSealed }
{}
