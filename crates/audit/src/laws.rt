//! Laws above the definitions.
ghost use Rattle.audit.specs.Laws.{HistoriesTell, OpenedAreWhole};

use core_history::renewed_read_back;

/// A history leaves out nothing of a state that a journal's first line opens: such a state reads back whole.
pub fn opened_are_whole()
    ensures { OpenedAreWhole }
{}

/// Where the same history is written of a renewed state and of one that a first line opens, they are the same state.
pub fn histories_tell()
    ensures { HistoriesTell }
{
    renewed_read_back();
}
