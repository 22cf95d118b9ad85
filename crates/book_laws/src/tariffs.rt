//! The law of tariff files, which holds of the definitions alone. It is the contract of a function
//! that does nothing.

ghost use Rattle.book_laws.specs.TariffLaws.{TariffTextsStay};

/// The text of a tariff that was accepted is the one of its first day, whatever follows, unless a
/// text takes its place, and then it is that one.
pub fn tariff_texts_stay()
    ensures { TariffTextsStay }
{}
