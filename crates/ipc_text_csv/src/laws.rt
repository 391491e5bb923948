ghost use Rattle.ipc_text_csv.specs.ReadBack.{TextComesBack};

/// The law: a header and the records of rows are read back as these rows in the same dialect, if
/// their values are null or of the columns' types.
pub fn text_comes_back()
    ensures { TextComesBack }
{}
