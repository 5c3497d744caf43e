//! What a reader makes of a label's value.
ghost use Rattle.exposition.specs.Escaping.{ValuesAreReadBack};

/// A label's value is read back as it was, up to the quotation mark that ends it.
pub fn values_are_read_back()
    ensures { ValuesAreReadBack }
{}
