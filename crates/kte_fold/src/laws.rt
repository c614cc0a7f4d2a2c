//! Laws of the folds. The function does nothing: its contract is the law, for every text, entry and
//! tree.
ghost use Rattle.kte_fold.specs.Laws.{CarryingKeepsTree};

/// Carrying all folds over one change of the text, and settling them, keeps the tree.
pub fn carrying()
    ensures { CarryingKeepsTree }
{}
