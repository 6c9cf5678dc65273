//! The texts that name a table's columns, over the one list of them that the table's file has.

// A SELECT of the rowid and the columns, with what stands behind the table, or an INSERT of these values.
macro_rules! table_text {
    (SELECT $table:literal $columns:literal $values:literal $rest:literal) => {
        concat!("SELECT rowid, ", $columns, " FROM ", $table, " ", $rest)
    };
    (INSERT $table:literal $columns:literal $values:literal) => {
        concat!("INSERT INTO ", $table, " (", $columns, ") VALUES (", $values, ")")
    };
}

// The text that asks a question of the numbered rows of a channel.
macro_rules! numbered_text {
    ($table:ident $question:ident) => {
        match $question {
            Question::All => $table!(SELECT "WHERE ch = ?1 ORDER BY ch, n"),
            Question::Page(_) => {
                $table!(SELECT "WHERE ch = ?1 AND n BETWEEN ?2 AND ?3 ORDER BY ch, n")
            }
            Question::Last => $table!(SELECT "WHERE ch = ?1 ORDER BY ch DESC, n DESC LIMIT 1"),
            Question::Number(_) => $table!(SELECT "WHERE ch = ?1 AND n = ?2 ORDER BY ch, n"),
        }
    };
}

pub(crate) use numbered_text;
pub(crate) use table_text;
