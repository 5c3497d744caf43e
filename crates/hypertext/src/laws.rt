//! What holds of every text that is shown.
ghost use Rattle.hypertext.specs.Escaping.{TextsAreNoMarkup};

/// No text that is shown has a bracket of a tag or a quotation mark of an attribute's value.
pub fn texts_are_no_markup()
    ensures { TextsAreNoMarkup }
{}
