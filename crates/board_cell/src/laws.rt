//! The laws of histories, of gets and of values, over the definitions alone.
ghost use Rattle.board_cell.specs.History.{HistoriesAreLegal, HistoriesTellPublications, HistoriesTellReads};
ghost use Rattle.board_cell.specs.Passes.{GetsAreNoOlder};
ghost use Rattle.board_cell.specs.WholeCalls.{CellsHaveOneValue, OthersKeepTheirValues};

/// The history of published values, and of notes that stand among them, is legal. It has each publication once and in order, and each reader's notes once and in that reader's order.
pub fn a_history_is_legal()
    ensures legal { HistoriesAreLegal }
    ensures publishes { HistoriesTellPublications }
    ensures reads { HistoriesTellReads }
{}

/// A cell has one value, so what is read is what was published last; and a publication in one cell leaves the values of the others.
pub fn a_cell_has_one_value()
    ensures one { CellsHaveOneValue }
    ensures others { OthersKeepTheirValues }
{}

/// A get is of the generation that its reader knew to be reached, or of a later one. So it is of the publication of a receipt that the reader learnt of, or of a later one.
pub fn a_get_is_no_older()
    ensures { GetsAreNoOlder }
{}
