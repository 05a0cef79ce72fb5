//! What holds of the text of a table, and of the implementations that rows make: each function's clause is a law, proved over the definitions alone.
ghost use Rattle.zi_packages.specs.Laws.{TableIsOne, BadLineIsOne, IdsStayDistinct, RowsStandBehind};

/// A text is that of one table at most.
pub fn table_is_one()
    ensures { TableIsOne }
{}

/// A bad text has one line that is told.
pub fn bad_line_is_one()
    ensures { BadLineIsOne }
{}

/// Where the ids of implementations are distinct, so are those of them with the rows.
pub fn ids_stay_distinct()
    ensures { IdsStayDistinct }
{}

/// The implementations stand in front of those of the rows.
pub fn rows_stand_behind()
    ensures { RowsStandBehind }
{}
