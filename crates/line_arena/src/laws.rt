//! Laws of lists of cells, for callers. The functions do nothing: their contracts are the laws.
ghost use Rattle.line_arena.specs.ListLaws.{LookUpLaws, AppendLaws, WithoutLaws, RewriteLaws};

/// What a look-up finds, and that the first cell of a list and the one after another are found.
pub fn looked_up<T>()
    ensures { LookUpLaws T }
{}

/// After a pair is put at the end of a list: what is found, and what each list is.
pub fn appended<T>()
    ensures { AppendLaws T }
{}

/// After a cell is taken off its list: what is found, and what each list is.
pub fn taken_off<T>()
    ensures { WithoutLaws T }
{}

/// After a cell's value is written: what is found, and what each list is.
pub fn rewritten<T>()
    ensures { RewriteLaws T }
{}
