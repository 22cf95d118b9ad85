//! What holds of every text inside a page. It is the contract of a function that does nothing.

ghost use Rattle.html_text.specs.Escaping.{DataMakesNoMarkup};

/// Whatever comes from a dump, what a page shows of it makes no markup: it has no byte that begins
/// or ends a tag or ends an attribute, and each ampersand in it begins a reference to one byte.
pub fn data_makes_no_markup()
    ensures { DataMakesNoMarkup }
{}
