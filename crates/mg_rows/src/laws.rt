//! Laws of the bytes of rows, each the contract of a function that does nothing.
ghost use Rattle.mg_rows.specs.Laws.{BytesGiveTheRow, BytesGiveTheValue, FirstColumnsAreAPrefix};
ghost use Rattle.mg_rows.specs.Laws.{PartsGiveTheRow, RowsAreInTheOrderOfTheirBytes};

/// The order of the bytes of rows is the order of the rows: by key, as arrays, and rows of equal keys by id.
pub fn rows_are_in_the_order_of_their_bytes()
    ensures { RowsAreInTheOrderOfTheirBytes }
{}

/// The bytes of a value determine the value and where it ends, and the bytes of a row determine its key and its id.
pub fn bytes_give_the_row()
    ensures values { BytesGiveTheValue }
    ensures rows { BytesGiveTheRow }
    ensures parts { PartsGiveTheRow }
{}

/// The bytes of a row begin with those of the values of its first columns, for any number of columns.
pub fn first_columns_are_a_prefix()
    ensures { FirstColumnsAreAPrefix }
{}
