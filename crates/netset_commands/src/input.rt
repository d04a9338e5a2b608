//! What is read: files, and what their lines say.

pub mod begun;
pub mod entries;
pub mod files;
pub mod good;
pub mod headed;
pub mod keeping;
pub mod lines;
pub mod lists;
pub mod numbers;
pub mod operands;
pub mod rows;
pub mod several;
pub mod stored;
pub mod table;
pub mod tables;
