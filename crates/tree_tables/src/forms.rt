/// The form of the books that this program keeps. Those of the first form say nothing of it.
pub const THIS_FORM: u32 = 3;
