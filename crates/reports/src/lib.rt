//! Tables and replies as records, in text and in csv form.
//!
//! | item | what it prints |
//! |---|---|
//! | [`put_ok`], [`put_refused`] | the reply to a line of a script |
//! | [`put_edges`] | the edges of a graph |
//! | [`put_points`], [`put_depth`] | numbered points with their measures, or with their depths |
//! | [`put_isovist`], [`put_isovists`] | the triangles of an isovist, or the totals of those of all open points |
//! | [`put_axial`], [`put_lines`] | axial lines, and their measures |
//! | [`put_segments`] | the pieces of routes |
//! | [`put_turns`] | the turn depths of the pieces of routes |
//! | [`put_plan`] | the lines of a plan's text |
//! | [`put_trial`] | the record of a trial |
//! | [`put_table`], [`put_table_with_total`] | any table, by its rows |
//! | [`Rows`], [`Record`] | the rows of a table as they are made, and the record in which each is made |
//! | [`reason_parts`] | the words of a cause, as replies and standard error give them |
//! | [`ReportFault`] | why not all was printed |
//!
//! ```text
//! table edges      table,edges        a record that begins the table
//! 0 1              0,1                its rows
//! 0 2              0,2
//! end 2            end,2              and how many they were
//! ```
//!
//! What is printed is what the tables over values in `specs/Tables.antt` and the replies in `specs/Replies.antt` of
//! `report_spec` say of the arguments. A new table costs its rows: a type with [`Rows`], whose `next_row` makes one
//! row. After an error a prefix of the table was printed; `Write` comes only where the sink's count of faults rose.
#![tactic(auto)]

mod axial;
mod csv_text;
mod edges;
mod fault;
mod isovists;
mod lines;
mod lists;
mod open_isovists;
mod open_points;
mod plans;
mod points;
mod record;
mod record_writer;
mod replies;
mod row_text;
mod segments;
mod table;
mod turns;
mod words;

pub use axial::put_axial;
pub use edges::put_edges;
pub use fault::ReportFault;
pub use isovists::put_isovist;
pub use lines::put_lines;
pub use open_points::put_isovists;
pub use plans::put_plan;
pub use points::{put_depth, put_points};
pub use record::Record;
pub use replies::{put_ok, put_refused, put_trial};
pub use segments::put_segments;
pub use table::{Rows, put_table, put_table_with_total};
pub use turns::put_turns;
pub use words::reason_parts;
