// What is looked up in the tables that a view lends.

ghost use Rattle.std.specs.Prelude.{◌≡◌};
ghost use Rattle.follow.specs.Rows.{row};
ghost use Rattle.follow.specs.Views.{shown, row_shown};

use super::{RowsView, TablesView};

impl<'a> TablesView<'a> {
    pub fn row(self, k: usize) -> &'a [u8]
        ensures row { result.now ≡ row (shown self.entry) k }
    {
        self.by_rows().row(k)
    }
}

impl<'a> RowsView<'a> {
    // The outcomes of row k in order: no further than the array, and none where there is no such row.
    pub fn row(self, k: usize) -> &'a [u8]
        ensures row { result.now ≡ row_shown self.entry k }
    {
        let rows = self.rows;
        let lens = self.lens;
        let Some(len) = lens.get(k) else {
            return &[];
        };
        let begin = 65 * k;
        &rows[begin..(begin + words::wide(*len)).min(4225)]
    }
}
