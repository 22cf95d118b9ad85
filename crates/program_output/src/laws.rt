//! Laws of trials, and of what numbers mean, which follow from their definitions alone. Each
//! belongs to a function that does nothing.

ghost use Rattle.program_output.specs.Laws.{SameRecordsSameTexts};
ghost use Rattle.program_output.specs.Explanations.{NumbersAreOneToOne};

/// Dumps with the same records have the same statement and the same disputes, where the books
/// refuse none: the layout, the segments and the order of the records, and how often each one
/// comes, make no difference.
pub fn same_records_same_texts()
    ensures { SameRecordsSameTexts }
{}

/// In each kind, no two numbers have the same meaning, and there are as many as `no_such_number`
/// says.
pub fn numbers_are_one_to_one()
    ensures { NumbersAreOneToOne }
{}
