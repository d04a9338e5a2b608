//! Lists of networks and tables as bytes: what their lines say, sets of what they say, and what is printed of those.
//!
//! No call reads or writes a stream. `Sets::of_text` reads a whole list in memory, and `Sets::to_text` prints a set. A
//! caller that cuts its input into lines itself, as by `cidr_io`, gives each line, without its line feed, to the call for
//! what the lines are:
//!
//! - `lines::content_of`: a line of a list says nothing, a network, an address or a range. `records::content_in`: the same, or
//!   a record of the Internet registries. `lists::Lists` collects the
//!   networks, and `sets::Sets` has their addresses, combines them and tells what lies in them.
//! - `entries::entry_of`: a line has a network or a host, with its place. `near` and `findings` tell what is found in
//!   them.
//! - `forms::row_of`: a row of a table is a network and its value, by a `RowForm`. `rows::RowList` collects them.
//! - `columns::split_line`, `fields::network_at` and `address_at`: the fields of a line that is looked up or picked, and
//!   `Sets::have_one` and `words::first_address` an address anywhere in a line, as in a log. `fields::asked_in` takes the one
//!   or the other by its `Asked`.
//!
//! A line in error is an `errors::LineError`, whose `message` is the text that follows `FILE:LINE: `: the string that is
//! wrong, and what is wrong with it. `changes` puts what a second list adds and lacks in order, `printing` has the text
//! of a network of an address, `classes` what an address is for, `descriptions` what is told of a host, and
//! `formats` prints a set for other tools. A call on a line takes time in its length and allocates nothing. Only what
//! collects, sorts, combines or prints whole lists allocates, and its one other error is that there is no memory.
#![tactic(auto)]

pub mod changes;
pub mod classes;
pub mod columns;
pub mod descriptions;
pub mod entries;
pub mod errors;
pub mod fields;
pub mod findings;
pub mod formats;
pub mod forms;
pub mod json;
pub mod laws;
pub mod lines;
pub mod lists;
mod masks;
pub mod near;
pub mod objects;
pub mod payloads;
pub mod prefix_lists;
pub mod printing;
pub mod records;
pub mod route_errors;
mod row_lines;
pub mod rows;
pub mod rules;
pub mod sets;
pub mod texts;
pub mod words;
pub mod wrong;
