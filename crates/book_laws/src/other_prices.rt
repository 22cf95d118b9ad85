//! Laws of the charge rows that a period would have by another tariff, which hold of the
//! definitions alone. Each is the contract of a function that does nothing.

ghost use Rattle.book_laws.specs.OtherPriceLaws.{BooksKeepWhatIfs, WhatIf};
ghost use Rattle.book_laws.specs.StatementWidths.{WhatIfsAreAligned};

/// By another tariff each record of a period costs what that tariff says; by the tariffs that gave
/// each record its price the rows are the statement's; by any tariff they count the same records,
/// with the same CPU time and blocks; and of a closed period the answer stays, also in any book
/// that can be read back.
pub fn what_if()
    ensures rows { WhatIf }
    ensures book { BooksKeepWhatIfs }
{}

/// The lines of such rows have 114 characters too, for any period of books that can be read back.
pub fn what_ifs_are_aligned()
    ensures { WhatIfsAreAligned }
{}
